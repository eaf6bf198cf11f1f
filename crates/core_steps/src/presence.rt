ghost use Rattle.std.specs.Prelude.{◌≡◌, ◌↔◌, option_map, Some, IfSome, IsSome, IsTrue};
ghost use Rattle.std.specs.List.{list_all};
ghost use Rattle.transition_formula.specs.Program.{at_number};
ghost use Rattle.horn_rules.specs.Home.{homes};
ghost use Rattle.horn_rules.specs.Instance.{premises_of};
ghost use Rattle.horn_rules.specs.Stored.{instance_of};
ghost use Rattle.core_steps.specs.Course.{opening_of, state_of};
ghost use Rattle.core_steps.specs.Pending.{is_present};
ghost use Rattle.core_steps.specs.Publishes.{job_task};
ghost use Rattle.core_steps.specs.State.{held_by};
ghost use Rattle.core_steps.specs.Withdrawn.{has_id};
ghost use Rattle.core_steps.specs.inside.Parts.{task_of};

use crate::held::Held;
use crate::stored_core::Core;
use horn_rules::Job;
use thr_base::{FactId, Instance};

impl<'p> Core<'p> {
    /// The job that a worker holds.
    pub(crate) fn job_held(&self, w: u32) -> Option<Held>
        ensures held { option_map (task_of self.now.program) result ≡ held_by (state_of self.now).holds w }
        ensures home { IfSome result (λ held. IsSome (at_number (homes self.now.program) held.home.0)) }
    {
        if w > self.workers {
            return None;
        }
        if w == 0 {
            return None;
        }
        self.holds[w as usize - 1]
    }

    /// Whether the worker that a job names holds that very job.
    pub(crate) fn holds_job(&self, job: &Job<'p>) -> bool
        requires { IsSome (at_number (homes self.now.program) job.now.home.0) }
        ensures { IsTrue result ↔ held_by (state_of self.now).holds job.now.worker ≡ Some (job_task self.now.program job.now) }
    {
        match self.job_held(job.worker) {
            None => false,
            Some(held) => is_of(held, job),
        }
    }

    /// Whether the fact is live.
    pub(crate) fn is_live(&self, id: FactId) -> bool
        ensures { result ≡ has_id (state_of self.now).live id.0 }
    {
        match self.table.kept(id) {
            Some(_) => true,
            None => false,
        }
    }

    /// Whether each premise that an instance names is live.
    fn are_live(&self, instance: Instance) -> bool
        ensures { result ≡ list_all (has_id (state_of self.now).live) (premises_of (instance_of instance)) }
    {
        match instance {
            Instance::Init(_) => true,
            Instance::Own(f, _) => self.is_live(f),
            Instance::Guar(f, _) => self.is_live(f),
            Instance::Env(f, t) => self.is_live(f) && self.is_live(t),
            Instance::Inter(f, g, _) => self.is_live(f) && self.is_live(g),
        }
    }

    /// Whether a job is not stale.
    pub(crate) fn is_present(&self, job: &Job<'p>) -> bool
        requires { IsSome (at_number (homes self.now.program) job.now.home.0) }
        ensures { result ≡ is_present (state_of self.now) (job_task self.now.program job.now) }
    {
        let epoch = self.epochs[job.home.0 as usize - 1];
        epoch == job.epoch.0 && self.are_live(job.instance)
    }
}

/// Whether what is held is of the same instance, home and epoch.
fn is_of(held: Held, job: &Job<'_>) -> bool
    ensures { IsTrue result ↔ (held.instance ≡ job.now.instance) × (held.home ≡ job.now.home) × (held.epoch ≡ job.now.epoch) }
{
    held.instance == job.instance && held.home == job.home && held.epoch == job.epoch
}
