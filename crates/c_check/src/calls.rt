//! Calls, as the instructions that they are.

ghost use Rattle.std.specs.Prelude.{◌≡◌, [], IfOk, OnOk};
ghost use Rattle.c_tree.specs.Seen.{plain_call};
ghost use Rattle.c_check.specs.Plan.{Arithmetic, Stmt, Test, one, test_postfix};
ghost use Rattle.c_check.specs.Resolve as resolve;
ghost use Rattle.c_check.specs.inside.Found.{found, together};

use crate::body::Body;
use crate::conditions::{test, test_need};
use crate::instruction::Instruction;
use crate::lookups::lock;
use crate::operation::{Mark, Operation};
use crate::scopes::Scopes;
use crate::test::{Comparison, TestOperation};
use c_tree::Call;
use sqlite_items::Items;
use std::alloc::{AllocError, Global};

/// The test of a number against 0.
pub fn not_zero(alloc: Global, from: u32, number: i128) -> Result<Items<TestOperation>, AllocError>
    ensures { IfOk result (λ r. r ≡ test_postfix (resolve.not_zero from (Arithmetic.Number number))) }
{
    let mut left = Items::new(alloc);
    left.push(Operation::Number(number))?;
    let mut right = Items::new(alloc);
    right.push(Operation::Number(0))?;
    let mut operations = Items::new(alloc);
    operations.push(TestOperation::Compare(Comparison {
        from,
        mark: Mark::Unequal,
        left,
        right,
    }))?;
    Ok(operations)
}

impl Body {
    /// Writes a call of the text. What `main` alone may call does nothing.
    pub fn call(&mut self, alloc: Global, scopes: &Scopes, c: &Call) -> Result<(), AllocError>
        ensures { OnOk result (self.new ≡ together self.old (found [] (resolve.call scopes.now (plain_call c.now)) [])) }
    {
        match c {
            Call::Assert(from, e) => {
                let operations = test(alloc, scopes, e)?;
                self.claim(*from, operations)
            }
            Call::Assume(from, e) => {
                let operations = test(alloc, scopes, e)?;
                self.suppose(*from, operations)
            }
            Call::ReachError(from) => {
                let never = not_zero(alloc, *from, 0)?;
                self.claim(*from, never)
            }
            Call::Abort(from) => {
                let never = not_zero(alloc, *from, 0)?;
                self.suppose(*from, never)
            }
            Call::Exit(from, _) => self.push(Instruction::Exit(*from)),
            Call::Lock(from, x) => self.push(Instruction::Lock(*from, lock(scopes, x))),
            Call::Unlock(from, x) => self.push(Instruction::Unlock(*from, lock(scopes, x))),
            Call::Destroy(_, _) => Ok(()),
            Call::Init(_, _, _) => Ok(()),
            Call::Create(_, _, _, _, _) => Ok(()),
            Call::Join(_, _, _) => Ok(()),
        }
    }

    // Writes an `assert`.
    fn claim(&mut self, from: u32, test: Items<TestOperation>) -> Result<(), AllocError>
        ensures { (t : Test) → test ≡ test_postfix t → OnOk result (self.new ≡ together self.old (found [] (one (Stmt.Assert from t)) [])) }
    {
        self.push_needing(test_need(test.as_slice()), Instruction::Assert(from, test))
    }

    // Writes a `__VERIFIER_assume`.
    fn suppose(&mut self, from: u32, test: Items<TestOperation>) -> Result<(), AllocError>
        ensures { (t : Test) → test ≡ test_postfix t → OnOk result (self.new ≡ together self.old (found [] (one (Stmt.Assume from t)) [])) }
    {
        self.push_needing(test_need(test.as_slice()), Instruction::Assume(from, test))
    }
}
