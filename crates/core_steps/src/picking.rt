ghost use Rattle.std.specs.Prelude.{◌≡◌, [], reverse, IfOk, OnOk};
ghost use Rattle.core_steps.specs.Claims.{IsClaimFor};
ghost use Rattle.core_steps.specs.Course.{opening_of, state_of};
ghost use Rattle.core_steps.specs.inside.Claiming.{IsClaimable, with_all_picked, with_picked};

use crate::keeping::names_any;
use crate::stored_core::Core;
use derivation_tree::Kept;
use fact_table::LiveFact;
use std::alloc::{AllocError, Global};
use thr_base::{Fact, FactId, Instance};

impl<'p> Core<'p> {
    /// A fact with all facts below it, for a worker.
    pub(crate) fn kept_below(&self, w: u32, root: FactId) -> Result<Kept<'p>, AllocError>
        requires { IsClaimable (state_of self.now) root.0 }
        ensures { IfOk result (IsClaimFor (opening_of self.now) (state_of self.now) w root.0) }
    {
        let alloc = *self.journal.allocator();
        let mut facts = facts_below(alloc, root, self.table.facts())?;
        facts.reverse();
        Ok(Kept::new(self.program, w, root, facts))
    }
}

/// The facts below a root, of facts by rising id; those with the greatest ids come first.
fn facts_below(
    alloc: Global,
    root: FactId,
    facts: &[LiveFact],
) -> Result<Vec<(FactId, Fact, Instance)>, AllocError>
    ensures { IfOk result (λ found. found.items ≡ with_all_picked root.0 [] (reverse facts.now)) }
{
    let mut found = Vec::new(alloc);
    for done in 0..facts.len() {
        pick(&mut found, root, &facts[facts.len() - 1 - done])?;
    }
    Ok(found)
}

/// Puts a fact at the end where it is the root, or a premise of one that is there.
fn pick(
    found: &mut Vec<(FactId, Fact, Instance)>,
    root: FactId,
    f: &LiveFact,
) -> Result<(), AllocError>
    ensures { OnOk result (found.new.items ≡ with_picked root.0 found.old.items f.now) }
{
    if f.id.0 == root.0 || names_any(found, f.id) {
        found.push((f.id, f.fact, f.kept))?;
    }
    Ok(())
}
