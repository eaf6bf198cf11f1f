//! The paths of tests, from their last comparison to their first.

ghost use Rattle.std.specs.Prelude.{◌≡◌, ◌∷◌, [], Some, IfOk, OnOk};
ghost use Rattle.thread_cfg.specs.inside.Few as specs;
ghost use Rattle.thread_cfg.specs.inside.Gone.{branch_of, branches_held, branches_of, parting_of, ways_of};

use crate::paths::Ways;
use c_check::{Condition, TestOperation};
use std::alloc::{AllocError, Global};
use std::mem;

/// The paths of a side, or those of what stands behind the test.
#[derive(Drop)]
pub(crate) enum Branch<'a> {
    Ways(Ways<'a>),
    Behind,
}

/// The branches of a test.
#[derive(Drop)]
pub(crate) struct Branches<'a> {
    pub(crate) on_true: Branch<'a>,
    pub(crate) on_false: Branch<'a>,
}

/// The paths of a branch, which takes those that stand behind.
fn branch_ways<'a>(alloc: Global, branch: Branch<'a>, behind: &mut Ways<'a>) -> Ways<'a>
    ensures taken { ways_of result ≡ specs.taken (ways_of behind.old) (branch_of branch.entry) }
    ensures left { ways_of behind.new ≡ specs.left_by (ways_of behind.old) (branch_of branch.entry) }
{
    match branch {
        Branch::Ways(ways) => ways,
        Branch::Behind => mem::replace(behind, Ways::none(alloc)),
    }
}

/// What is known behind an operation.
#[derive(Drop)]
pub(crate) struct Parting<'a> {
    pub(crate) behind: Ways<'a>,
    /// Of the tests that end there, the innermost one last.
    pub(crate) branches: Vec<Branches<'a>>,
}

impl<'a> Parting<'a> {
    /// A test with these branches ends here.
    fn push(&mut self, on_true: Branch<'a>, on_false: Branch<'a>) -> Result<(), AllocError>
        ensures { OnOk result (parting_of self.new ≡ record (parting_of self.old) {
          branches = record { on_true = branch_of on_true.entry; on_false = branch_of on_false.entry } ∷ branches_held self.old.branches.items;
        }) }
    {
        self.branches.push(Branches { on_true, on_false })?;
        Ok(())
    }

    /// The operation ends a test with these paths of its sides.
    fn part(
        &mut self,
        alloc: Global,
        operation: &'a TestOperation,
        on_true: Ways<'a>,
        on_false: Ways<'a>,
    ) -> Result<(), AllocError>
        ensures { OnOk result (parting_of self.new ≡ specs.parted_by operation.now (ways_of on_true.entry) (ways_of on_false.entry)
            (parting_of self.old).branches (parting_of self.old).behind) }
    {
        match operation {
            TestOperation::Compare(comparison) => {
                self.behind = Ways::of_comparison(alloc, comparison, on_true, on_false)?;
                Ok(())
            }
            TestOperation::Not => self.push(Branch::Ways(on_false), Branch::Ways(on_true)),
            TestOperation::And => {
                let on_false = on_false.where_few(&on_true);
                let again = on_false.copy(alloc)?;
                self.push(Branch::Behind, Branch::Ways(again))?;
                self.push(Branch::Ways(on_true), Branch::Ways(on_false))
            }
            TestOperation::Or => {
                let on_true = on_true.where_few(&on_false);
                let again = on_true.copy(alloc)?;
                self.push(Branch::Ways(again), Branch::Behind)?;
                self.push(Branch::Ways(on_true), Branch::Ways(on_false))
            }
        }
    }

    /// To the front of an operation.
    fn enter(&mut self, alloc: Global, operation: &'a TestOperation) -> Result<(), AllocError>
        ensures { OnOk result (parting_of self.new ≡ specs.parted operation.now (parting_of self.old)) }
    {
        match self.branches.pop() {
            Some(Branches { on_true, on_false }) => {
                let on_true = branch_ways(alloc, on_true, &mut self.behind);
                let on_false = branch_ways(alloc, on_false, &mut self.behind);
                self.part(alloc, operation, on_true, on_false)
            }
            None => Ok(()),
        }
    }
}

/// The paths of a test, with those of its sides.
pub(crate) fn test_ways<'a>(
    alloc: Global,
    tests: &'a [TestOperation],
    on_true: Ways<'a>,
    on_false: Ways<'a>,
) -> Result<Ways<'a>, AllocError>
    ensures { IfOk result (λ ways. ways_of ways ≡ specs.test_ways tests.now (ways_of on_true.entry) (ways_of on_false.entry)) }
{
    let mut parting = Parting {
        behind: Ways::none(alloc),
        branches: Vec::new(alloc),
    };
    parting.push(Branch::Ways(on_true), Branch::Ways(on_false))?;
    'tests: for index in (0..tests.len()).rev() {
        parting.enter(alloc, &tests[index])?;
    }
    Ok(parting.behind)
}

/// The paths of a condition, with those of its sides.
pub(crate) fn condition_ways<'a>(
    alloc: Global,
    condition: &'a Condition,
    on_true: Ways<'a>,
    on_false: Ways<'a>,
) -> Result<Ways<'a>, AllocError>
    ensures { IfOk result (λ ways. ways_of ways ≡ specs.condition_ways condition.now (ways_of on_true.entry) (ways_of on_false.entry)) }
{
    match condition {
        Condition::Choice(_) => on_true.and(on_false),
        Condition::Test(_, tests) => test_ways(alloc, tests.as_slice(), on_true, on_false),
    }
}
