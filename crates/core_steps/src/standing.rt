ghost use Rattle.std.specs.Prelude.{◌≡◌, ◌↔◌, false, option_map, Some, IsTrue};
ghost use Rattle.horn_rules.specs.Job.{IsJob};
ghost use Rattle.core_steps.specs.Claims.{KeptAgrees};
ghost use Rattle.core_steps.specs.Course.{opening_of, state_of};
ghost use Rattle.core_steps.specs.Jobs.{JobAgrees};
ghost use Rattle.core_steps.specs.Pending.{is_present};
ghost use Rattle.core_steps.specs.Publishes.{job_task};
ghost use Rattle.core_steps.specs.State.{claimed_by, held_by};
ghost use Rattle.core_steps.specs.inside.Standing.{ClaimStands, JobStands};

use crate::stored_core::Core;
use derivation_tree::Kept;
use horn_rules::Job;
use thr_base::FactId;

/// How what a worker names stands: the worker does not hold it, or it is not the run's; it is stale; or it stands.
#[derive(Clone, Copy, Debug, PartialEq, Eq)]
pub(crate) enum Standing {
    Foreign,
    Stale,
    Holds,
}

impl<'p> Core<'p> {
    /// How a job stands that a worker names.
    pub(crate) fn job_standing(&self, w: u32, job: &Job<'p>) -> Standing
        requires { IsJob self.now.program job.now }
        ensures { JobStands (opening_of self.now) (state_of self.now) w job.now result }
    {
        if job.worker != w {
            return Standing::Foreign;
        }
        if !self.holds_job(job) {
            return Standing::Foreign;
        }
        if !self.is_present(job) {
            return Standing::Stale;
        }
        if !self.agrees(job) {
            return Standing::Foreign;
        }
        Standing::Holds
    }

    /// How a claim stands that a worker names.
    pub(crate) fn claim_standing(&self, w: u32, kept: &Kept<'p>) -> Standing
        requires { kept.now.program ≡ self.now.program }
        ensures { ClaimStands (state_of self.now) w kept.now result }
    {
        if kept.worker() != w {
            return Standing::Foreign;
        }
        if !self.has_claimed(w, kept.root()) {
            return Standing::Foreign;
        }
        if !self.is_live(kept.root()) {
            return Standing::Stale;
        }
        if !self.agrees_with(kept) {
            return Standing::Foreign;
        }
        Standing::Holds
    }

    /// The root that a worker has claimed.
    pub(crate) fn root_claimed(&self, w: u32) -> Option<FactId>
        ensures { option_map (λ id. id.0) result ≡ claimed_by (state_of self.now).claims w }
    {
        if w > self.workers {
            return None;
        }
        if w == 0 {
            return None;
        }
        self.claims[w as usize - 1]
    }

    /// Whether the worker has claimed this root.
    fn has_claimed(&self, w: u32, root: FactId) -> bool
        ensures { IsTrue result ↔ claimed_by (state_of self.now).claims w ≡ Some root.0 }
    {
        match self.root_claimed(w) {
            None => false,
            Some(other) => other.0 == root.0,
        }
    }
}
