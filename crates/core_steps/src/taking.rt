ghost use Rattle.std.specs.Prelude.{◌≡◌, None, Some, IfOk, OnErr, MatchOption};
ghost use Rattle.core_steps.specs.Course.{opening_of, state_of};
ghost use Rattle.core_steps.specs.State.{IsFree, IsWorker, Task};
ghost use Rattle.core_steps.specs.Jobs.{Takes};
ghost use Rattle.core_steps.specs.inside.Taking.{HandsOut, IsChosen, IsNextOf, IsThisOne, NonePending, IsNotPending};

use crate::answers::Taken;
use crate::event::Reason;
use crate::stored_core::Core;
use pending_instances::Next;
use std::alloc::AllocError;
use thr_base::{Instance, ThreadNo};

impl<'p> Core<'p> {
    /// Hands a pending job out to a worker, one of its own thread where there is one.
    pub fn take(&mut self, w: u32) -> Result<Taken<'p>, AllocError>
        requires { IsWorker (opening_of self.old) w }
        ensures answer { IfOk result (λ taken. Takes self.old w None taken self.new) }
        ensures err { OnErr result (self.new ≡ self.old) }
    {
        if self.is_stopped() {
            return Ok(Taken::Stopped);
        }
        if !self.is_free(w) {
            return Ok(Taken::HoldsAlready);
        }
        match self.next_for(w) {
            None => Ok(Taken::NothingPending),
            Some(next) => self.hand_out(w, next),
        }
    }

    /// Hands out the job of this instance, and no other.
    pub fn take_this(&mut self, w: u32, instance: Instance) -> Result<Taken<'p>, AllocError>
        requires { IsWorker (opening_of self.old) w }
        ensures answer { IfOk result (λ taken. Takes self.old w (Some instance) taken self.new) }
        ensures err { OnErr result (self.new ≡ self.old) }
    {
        if self.is_stopped() {
            return Ok(Taken::Stopped);
        }
        if !self.is_free(w) {
            return Ok(Taken::HoldsAlready);
        }
        match self.this_one(instance) {
            None => Ok(Taken::NothingPending),
            Some(next) => self.hand_out(w, next),
        }
    }

    /// What is taken next, by a worker that may take any.
    pub(crate) fn next_for(&self, w: u32) -> Option<Next>
        requires { (state_of self.now).stop ≡ None }
        ensures { MatchOption result (NonePending (opening_of self.now) (state_of self.now)) (IsChosen (opening_of self.now) (state_of self.now) w) }
    {
        self.waiting.choose(ThreadNo(w))
    }

    /// The instance, where it is pending.
    fn this_one(&self, instance: Instance) -> Option<Next>
        requires { (state_of self.now).stop ≡ None }
        ensures { MatchOption result (IsNotPending (opening_of self.now) (state_of self.now) instance) (IsThisOne (opening_of self.now) (state_of self.now) instance) }
    {
        let home = self.waiting.home_if_open(instance)?;
        Some(Next { instance, home })
    }

    /// Hands the job of a pending instance out, or stops where no publishes are left.
    fn hand_out(&mut self, w: u32, next: Next) -> Result<Taken<'p>, AllocError>
        requires worker { IsWorker (opening_of self.old) w }
        requires no_stop { (state_of self.old).stop ≡ None }
        requires free { IsFree (state_of self.old) w }
        requires pending { (task : Task) × IsNextOf (opening_of self.old) (state_of self.old) next task }
        ensures answer { IfOk result (λ taken. HandsOut self.old w next taken self.new) }
        ensures err { OnErr result (self.new ≡ self.old) }
    {
        if self.published >= self.limits.jobs {
            self.record_stop(w, Reason::Jobs(self.limits.jobs));
            return Ok(Taken::Stopped);
        }
        let job = self.job_of(w, next)?;
        self.add_take(w, next)?;
        Ok(Taken::Job(job))
    }
}
