ghost use Rattle.std.specs.Prelude.{◌≡◌, IfOk};
ghost use Rattle.horn_rules.specs.Job.{IsJob};
ghost use Rattle.abstract_post.specs.Left.{IsPostAnswer};

use horn_rules::{Job, PostAnswer};
use std::alloc::{AllocError, Global};
use transition_formula::Program;

/// Who finds out what comes of jobs.
pub trait Poster {
    /// The post of a job, or how it is left undecided.
    fn post<'p>(
        &self,
        alloc: Global,
        program: &'p Program,
        job: Job<'p>,
    ) -> Result<PostAnswer<'p>, AllocError>
        requires same { job.program.now ≡ program.now }
        requires fits { IsJob program.now job }
        ensures { IfOk result (IsPostAnswer program.now job.entry) };
}
