ghost use Rattle.std.specs.Prelude.{◌≡◌, ◌≢◌, None, Some, IfOk, OnErr};
ghost use Rattle.std.specs.List.{AllByRecursion};
ghost use Rattle.derivation_tree.specs.Kept.{predicates_of_stored};
ghost use Rattle.core_steps.specs.Course.{opening_of, state_of};
ghost use Rattle.core_steps.specs.Refines.{IsSmall, Refines};
ghost use Rattle.core_steps.specs.inside.Changing.{HasItsNumber, IsGrowth, Stands};

use crate::answers::Refined;
use crate::event::Reason;
use crate::growing::Growth;
use crate::opening::copy_of;
use crate::standing::Standing;
use crate::stored_core::Core;
use derivation_tree::Refutation;
use horn_rules::{home_count, named};
use lin_rows::Atom;
use std::alloc::AllocError;
use thr_base::HomeNo;

impl<'p> Core<'p> {
    /// Refines by what the tree of a claim teaches: its new predicates are added, and what rests on their homes is withdrawn.
    pub fn refine(&mut self, refutation: Refutation<'p>) -> Result<Refined, AllocError>
        requires program { refutation.kept.program ≡ self.old.program }
        requires small { IsSmall (opening_of self.old) refutation }
        ensures answer { IfOk result (λ refined. Refines self.old refutation.entry refined self.new) }
        ensures err { OnErr result (self.new ≡ self.old) }
    {
        let _program = &self.program; // what every core keeps is known from here on
        let kept = refutation.kept();
        let w = kept.worker();
        if self.is_stopped() {
            self.drop_any_claim(w);
            return Ok(Refined::Stopped);
        }
        let standing = self.claim_standing(w, kept);
        match standing {
            Standing::Foreign => Ok(Refined::NotHeld),
            Standing::Stale => {
                self.drop_claim(w);
                Ok(Refined::Stale)
            }
            Standing::Holds => self.refine_held(&refutation),
        }
    }

    /// Refines by a claim that stands. The limits are looked at before anything is added.
    fn refine_held(&mut self, refutation: &Refutation<'p>) -> Result<Refined, AllocError>
        requires { Stands (opening_of self.old) (state_of self.old) refutation.now }
        ensures answer { IfOk result (λ refined. Refines self.old refutation.now refined self.new) }
        ensures err { OnErr result (self.new ≡ self.old) }
    {
        let limit = self.limits.refinements;
        let program = self.program;
        let kept = refutation.kept();
        let _facts = kept.facts(); // its contract says what every claim keeps
        let w = kept.worker();
        let predicates = refutation.predicates();
        if self.refined >= limit {
            self.record_stop(w, Reason::Refinements(limit));
            return Ok(Refined::Stopped);
        }
        let growth = self.growth_by(predicates)?;
        match growth {
            Growth::Full(home) => {
                self.record_stop(w, Reason::Predicates(named(program, home)));
                Ok(Refined::Stopped)
            }
            Growth::New(sets, new) => {
                let gone = self.add_new(w, refutation.scope(), sets, new)?;
                Ok(Refined::Done(gone))
            }
        }
    }

    /// What homes get by these predicates. Nothing changes.
    fn growth_by(&self, predicates: &[(HomeNo, Atom)]) -> Result<Growth, AllocError>
        requires { AllByRecursion (HasItsNumber self.now.program) predicates.now }
        ensures { IfOk result (IsGrowth self.now.program (state_of self.now) (predicates_of_stored self.now.program predicates.now)) }
    {
        let alloc = *self.journal.allocator();
        let mut sets = copy_of(alloc, &self.sets, home_count(self.program))?;
        let mut new = Vec::new(alloc);
        let full = self.grow(alloc, &mut sets, &mut new, predicates)?;
        match full {
            Some(home) => Ok(Growth::Full(home)),
            None => Ok(Growth::New(sets, new)),
        }
    }
}
