ghost use Rattle.std.specs.Prelude.{◌≡◌, ◌<◌, ◌-◌, ◌^◌, IfOk, length};
ghost use Rattle.lin_rows.specs.System.{System};
ghost use Rattle.farkas_cert.specs.Elimination as specs;
ghost use Rattle.plain_elim.specs.inside.Held.{kept_of, next_of};
ghost use Rattle.plain_elim.specs.inside.Stages.{after_stages, lines_in};

use crate::kept::Kept;
use crate::line::Line;
use crate::work::{Next, Work};
use farkas_cert::LeaveKind;
use std::alloc::AllocError;

/// What a stage comes to that keeps something for its column and goes on with lines, where those could be made.
pub fn follows(
    mut kept: Vec<Kept>,
    latest: Kept,
    made: u64,
    lines: Option<Vec<Line>>,
) -> Result<Next, AllocError>
    requires { length kept.items < 2 ^ 32 - 1 }
    ensures { IfOk result (λ next. (system : System) → next_of system next ≡ specs.follows (after_stages kept.items) (kept_of latest) made (lines_in lines)) }
{
    match lines {
        Some(lines) => {
            kept.push(latest)?;
            Ok(Next::Goes(Work { lines, kept, made }))
        }
        None => Ok(Next::Leaves(kept.len() as u32 + 1, LeaveKind::Overflow)),
    }
}
