ghost use Rattle.std.specs.Prelude.{◌≡◌};
ghost use Rattle.horn_rules.specs.Job.{IsOutcome};

use crate::job::Job;
use farkas_cert::LeaveKind;
use std::marker::Model;

/// A job with its outcome, which is the post of its instance: nothing, or the positions of the target's predicates that hold.
#[derive(Drop)]
pub struct Posted<'p> {
    job: Job<'p>,
    held: Option<u128>,
}

impl<'p> Model for Posted<'p> {
    ghost use Rattle.horn_rules.specs.Job.{IsOutcome, JobOutcome};

    ghost Value = { JobOutcome };

    ghost view = { λ inside. record { job = inside.job; held = inside.held } };

    ghost invariant = { λ inside. IsOutcome inside.job.program.now inside.job inside.held };
}

impl<'p> Posted<'p> {
    /// An outcome as the job's post.
    pub fn new(job: Job<'p>, held: Option<u128>) -> Posted<'p>
        requires { IsOutcome job.program.now job held }
        ensures { result ≡ record { job = job.entry; held = held } }
    {
        Posted { job, held }
    }

    pub fn job(&self) -> &Job<'p>
        ensures job { result.now ≡ self.now.job }
        ensures outcome { IsOutcome self.now.job.program.now self.now.job self.now.held }
    {
        &self.job
    }

    /// The positions that hold, or nothing where the instance's rows are refuted.
    pub fn held(&self) -> Option<u128>
        ensures held { result ≡ self.now.held }
        ensures outcome { IsOutcome self.now.job.program.now self.now.job self.now.held }
    {
        self.held
    }
}

/// What comes of a job: its post, or the kind with which the solver left a system of it undecided.
#[derive(Drop)]
pub enum PostAnswer<'p> {
    Posted(Posted<'p>),
    Left(Job<'p>, LeaveKind),
}
