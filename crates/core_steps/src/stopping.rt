ghost use Rattle.std.specs.Prelude.{◌≡◌};
ghost use Rattle.derivation_tree.specs.Kept.{IsOfTree};
ghost use Rattle.core_steps.specs.Allowed.{IsReason};
ghost use Rattle.core_steps.specs.Course.{opening_of, state_of};
ghost use Rattle.core_steps.specs.State.{IsWorker};
ghost use Rattle.core_steps.specs.Stops.{IsOfRun, MayBeGiven, Stops};
ghost use Rattle.core_steps.specs.Stored.{reason_of, reason_of_left};
ghost use Rattle.core_steps.specs.inside.Standing.{LeftStands, ReasonStands, WhereItStands};

use crate::answers::StopAnswer;
use crate::event::Reason;
use crate::standing::Standing;
use crate::stored_core::Core;
use derivation_tree::Left;

impl<'p> Core<'p> {
    /// Stops the run: by what a solver or a limit leaves, by a schedule that fails, or by want of memory. It takes no memory itself.
    pub fn stop(&mut self, w: u32, reason: Reason<'p>) -> StopAnswer
        requires worker { IsWorker (opening_of self.old) w }
        requires reason { MayBeGiven (opening_of self.old) reason }
        ensures { Stops self.old w reason.entry result self.new }
    {
        if self.is_stopped() {
            self.drop_any(w);
            return StopAnswer::Stopped;
        }
        let standing = self.reason_standing(w, &reason);
        match standing {
            Standing::Foreign => StopAnswer::NotHeld,
            Standing::Stale => {
                self.drop_held(w);
                StopAnswer::Stale
            }
            Standing::Holds => {
                self.record_stop(w, reason);
                StopAnswer::Recorded
            }
        }
    }

    /// How what a reason names stands.
    fn reason_standing(&self, w: u32, reason: &Reason<'p>) -> Standing
        requires { MayBeGiven (opening_of self.now) reason.now }
        ensures so { ReasonStands (opening_of self.now) (state_of self.now) w reason.now result }
        ensures is_reason { WhereItStands result (IsReason (opening_of self.now) (state_of self.now) w (reason_of reason.now)) }
    {
        match reason {
            Reason::Left(left) => self.left_standing(w, left),
            Reason::Unsafe(_) => Standing::Holds,
            Reason::Memory => Standing::Holds,
            Reason::Facts(_) => unreachable!(),
            Reason::Jobs(_) => unreachable!(),
            Reason::Refinements(_) => unreachable!(),
            Reason::Predicates(_) => unreachable!(),
        }
    }

    /// How what is left stands.
    fn left_standing(&self, w: u32, left: &Left<'p>) -> Standing
        requires { IsOfRun (opening_of self.now) left.now }
        ensures so { LeftStands (opening_of self.now) (state_of self.now) w left.now result }
        ensures is_reason { WhereItStands result (IsReason (opening_of self.now) (state_of self.now) w (reason_of_left left.now)) }
    {
        let job = left.job();
        match job {
            Some((job, _)) => self.job_standing(w, job),
            None => self.tree_standing(w, left),
        }
    }

    /// How a claim stands whose tree is left.
    fn tree_standing(&self, w: u32, left: &Left<'p>) -> Standing
        requires run { IsOfRun (opening_of self.now) left.now }
        requires tree { IsOfTree left.now }
        ensures so { LeftStands (opening_of self.now) (state_of self.now) w left.now result }
        ensures is_reason { WhereItStands result (IsReason (opening_of self.now) (state_of self.now) w (reason_of_left left.now)) }
    {
        let _program = &self.program; // what every core keeps is known from here on
        let tree = left.tree();
        let Some((kept, _)) = tree else {
            unreachable!()
        };
        let _facts = kept.facts(); // its contract says what every claim keeps
        self.claim_standing(w, kept)
    }
}
