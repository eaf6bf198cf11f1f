ghost use Rattle.std.specs.Prelude.{◌≡◌, ◌↔◌, ◌⊎◌, Some, IsSome, IsTrue, IfOk, OnErr, MatchOption};
ghost use Rattle.std.specs.List.{AllByRecursion};
ghost use Rattle.transition_formula.specs.Program.{at_number};
ghost use Rattle.horn_rules.specs.Home.{homes};
ghost use Rattle.core_steps.specs.Answers.{AreAllClaimed};
ghost use Rattle.core_steps.specs.Claims.{MakesClaim};
ghost use Rattle.core_steps.specs.Course.{opening_of, state_of};
ghost use Rattle.core_steps.specs.State.{IsWorker};
ghost use Rattle.core_steps.specs.inside.Claiming.{IsClaimable, IsOneToClaim, IsUnclaimed, MayBeClaimed, any_root, is_root};

use crate::answers::Claimed;
use crate::failing::is_failing;
use crate::stored_core::Core;
use fact_table::LiveFact;
use std::alloc::AllocError;
use thr_base::FactId;

impl<'p> Core<'p> {
    /// Claims a live fact at location 0 that nobody has claimed, for a worker: with it come all facts below it.
    pub fn claim(&mut self, w: u32) -> Result<Claimed<'p>, AllocError>
        requires { IsWorker (opening_of self.old) w }
        ensures answer { IfOk result (λ claimed. MakesClaim self.old w claimed self.new) }
        ensures err { OnErr result (self.new ≡ self.old) }
    {
        if self.is_stopped() {
            return Ok(Claimed::Stopped);
        }
        if !self.is_free(w) {
            return Ok(Claimed::HoldsAlready);
        }
        let root = self.claimable();
        match root {
            None => Ok(Claimed::NothingClaimable),
            Some(root) => {
                let kept = self.kept_below(w, root)?;
                self.add_claim(w, root);
                Ok(Claimed::Kept(kept))
            }
        }
    }

    /// The fact that is claimed next: of those that may be, one with the smallest derivation, and of these the first.
    fn claimable(&self) -> Option<FactId>
        ensures { MatchOption result (AreAllClaimed (state_of self.now)) (λ id. IsClaimable (state_of self.now) id.0) }
    {
        let _program = &self.program; // what every core keeps is known from here on
        let one = self.one_to_claim(self.table.facts());
        match one {
            None => None,
            Some(f) => Some(f.id),
        }
    }

    fn one_to_claim(&self, facts: &[LiveFact]) -> Option<LiveFact>
        requires { AllByRecursion (λ f. IsSome (at_number (homes self.now.program) f.fact.home.0)) facts.now }
        ensures { IsOneToClaim self.now.program (state_of self.now) facts.now result }
    {
        let mut one = None;
        for f in facts {
            if self.may_be_claimed(f) {
                one = Some(smaller(one, *f));
            }
        }
        one
    }

    /// Whether the fact is at location 0, and nobody has claimed it.
    fn may_be_claimed(&self, f: &LiveFact) -> bool
        requires { IsSome (at_number (homes self.now.program) f.now.fact.home.0) }
        ensures { IsTrue result ↔ MayBeClaimed self.now.program (state_of self.now) f.now }
    {
        if !is_failing(self.program, f.fact.home) {
            return false;
        }
        self.is_unclaimed(f.id)
    }

    fn is_unclaimed(&self, id: FactId) -> bool
        ensures { IsTrue result ↔ IsUnclaimed (state_of self.now) id.0 }
    {
        !any_root(&self.claims, id)
    }
}

/// The fact with the smaller derivation, the first where both are as large.
fn smaller(first: Option<LiveFact>, other: LiveFact) -> LiveFact
    ensures { (result ≡ other) ⊎ (first ≡ Some result) }
{
    match first {
        None => other,
        Some(first) => {
            if other.rank.size < first.rank.size {
                other
            } else {
                first
            }
        }
    }
}

/// Whether some of the roots is this one.
fn any_root(claims: &[Option<FactId>], id: FactId) -> bool
    ensures { result ≡ any_root claims.now id }
{
    claims.iter().any(|root| is_root(id, *root))
}

fn is_root(id: FactId, root: Option<FactId>) -> bool
    ensures { result ≡ is_root id root }
{
    match root {
        None => false,
        Some(root) => root.0 == id.0,
    }
}
