ghost use Rattle.std.specs.Prelude.{◌≡◌, IfOk};
ghost use Rattle.horn_rules.specs.Job.{IsJob};
ghost use Rattle.abstract_post.specs.Left.{IsPostAnswer};

use crate::deciding::{Found, solve};
use horn_rules::{Job, PostAnswer, Posted, atoms_are_placed, in_front, instance_rows};
use std::alloc::{AllocError, Global};
use thr_base::positions_are_those_held;
use transition_formula::Program;

/// The post of a job: nothing where its instance's rows are refuted, and else the positions of the target's predicates that
/// they entail.
pub fn post<'p>(
    alloc: Global,
    program: &'p Program,
    job: Job<'p>,
) -> Result<PostAnswer<'p>, AllocError>
    requires same { job.program.now ≡ program.now }
    requires fits { IsJob program.now job }
    ensures { IfOk result (IsPostAnswer program.now job.entry) }
{
    atoms_are_placed();
    positions_are_those_held();
    let rows = instance_rows(alloc, program, &job)?;
    let before = in_front(program.columns(), job.instance);
    let found = solve(alloc, &rows.view(), before, job.target.atoms())?;
    match found {
        Found::Refuted => Ok(PostAnswer::Posted(Posted::new(job, None))),
        Found::Held(held) => Ok(PostAnswer::Posted(Posted::new(job, Some(held)))),
        Found::Left(kind) => Ok(PostAnswer::Left(job, kind)),
    }
}
