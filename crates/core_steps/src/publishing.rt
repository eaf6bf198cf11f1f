ghost use Rattle.std.specs.Prelude.{◌≡◌, ◌≢◌, None, Some, true};
ghost use Rattle.core_steps.specs.Course.{opening_of, state_of};
ghost use Rattle.core_steps.specs.Jobs.{JobAgrees};
ghost use Rattle.core_steps.specs.Pending.{is_present};
ghost use Rattle.core_steps.specs.Publishes.{Publishes, job_task};
ghost use Rattle.core_steps.specs.State.{held_by};
ghost use Rattle.core_steps.specs.inside.Publishing.{DropsAny};

use crate::answers::Published;
use crate::event::Reason;
use crate::stored_core::Core;
use fact_table::Inserted;
use horn_rules::Posted;
use thr_base::Fact;

impl<'p> Core<'p> {
    /// Publishes the post of a job: its fact becomes live, unless it is live already. It takes no memory.
    pub fn publish(&mut self, posted: Posted<'p>) -> Published
        requires { posted.job.program.now ≡ self.old.program }
        ensures { Publishes self.old posted.entry result self.new }
    {
        let job = posted.job();
        if self.is_stopped() {
            self.drop_any_job(job.worker);
            return Published::Stopped;
        }
        if !self.holds_job(job) {
            return Published::NotHeld;
        }
        self.publish_held(&posted)
    }

    /// After a stop: the worker's job is dropped.
    fn drop_any_job(&mut self, w: u32)
        requires { (state_of self.old).stop ≢ None }
        ensures { DropsAny self.old w self.new }
    {
        let _program = &self.program; // what every core keeps is known from here on
        match self.job_held(w) {
            Some(_) => self.drop_job(w),
            None => {}
        }
    }

    /// Publishes a job that its worker holds.
    fn publish_held(&mut self, posted: &Posted<'p>) -> Published
        requires program { posted.now.job.program.now ≡ self.old.program }
        requires no_stop { (state_of self.old).stop ≡ None }
        requires held { held_by (state_of self.old).holds posted.now.job.worker ≡ Some (job_task self.old.program posted.now.job) }
        ensures { Publishes self.old posted.now result self.new }
    {
        let _program = &self.program; // what every core keeps is known from here on
        let job = posted.job();
        if !self.is_present(job) {
            self.drop_job(job.worker);
            return Published::Stale;
        }
        if !self.agrees(job) {
            return Published::NotHeld;
        }
        match posted.held() {
            None => self.publish_nothing(posted),
            Some(held) => self.publish_fact(posted, held),
        }
    }

    /// Publishes that a job gives nothing.
    fn publish_nothing(&mut self, posted: &Posted<'p>) -> Published
        requires program { posted.now.job.program.now ≡ self.old.program }
        requires no_stop { (state_of self.old).stop ≡ None }
        requires held { held_by (state_of self.old).holds posted.now.job.worker ≡ Some (job_task self.old.program posted.now.job) }
        requires present { is_present (state_of self.old) (job_task self.old.program posted.now.job) ≡ true }
        requires agrees { JobAgrees (opening_of self.old) (state_of self.old) posted.now.job }
        requires nothing { posted.now.held ≡ None }
        ensures { Publishes self.old posted.now result self.new }
    {
        let _program = &self.program; // what every core keeps is known from here on
        let job = posted.job();
        self.add_nothing(job.worker);
        Published::Nothing
    }

    /// Publishes the fact that a job gives.
    fn publish_fact(&mut self, posted: &Posted<'p>, held: u128) -> Published
        requires program { posted.now.job.program.now ≡ self.old.program }
        requires no_stop { (state_of self.old).stop ≡ None }
        requires held { held_by (state_of self.old).holds posted.now.job.worker ≡ Some (job_task self.old.program posted.now.job) }
        requires present { is_present (state_of self.old) (job_task self.old.program posted.now.job) ≡ true }
        requires agrees { JobAgrees (opening_of self.old) (state_of self.old) posted.now.job }
        requires posted { posted.now.held ≡ Some held }
        ensures { Publishes self.old posted.now result self.new }
    {
        let limit = self.limits.facts;
        let job = posted.job();
        let fact = Fact {
            home: job.home,
            held,
        };
        let added = self.add_fact(job, fact);
        match added {
            Inserted::New(id) => Published::New(id),
            Inserted::Same(id) => Published::Same(id),
            Inserted::Full => {
                self.record_stop(job.worker, Reason::Facts(limit));
                Published::Stopped
            }
        }
    }
}
