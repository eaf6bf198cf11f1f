ghost use Rattle.std.specs.Prelude.{◌≡◌, IfOk, true, pos, int_lt, map, ◌++◌};
ghost use Rattle.std.specs.Option.{option_map};
ghost use Rattle.farkas_cert.specs.Elimination as specs;
ghost use Rattle.farkas_cert.specs.Line as line_specs;
ghost use Rattle.plain_elim.specs.inside.Stages.{lines_in};

use crate::combination::made_line;
use crate::factors::common_divisor;
use crate::line::Line;
use lin_rows::floor_of;
use std::alloc::{AllocError, Global};

/// Two lines, added so that the column falls out.
fn paired_line(
    alloc: Global,
    column: u32,
    positive: &Line,
    negative: &Line,
) -> Result<Option<Line>, AllocError>
    requires { int_lt (line_specs.coefficient_at column negative.now) (pos 0) ≡ true }
    ensures { IfOk result (λ made. made ≡ specs.paired_line column positive.now negative.now) }
{
    let p = positive.coefficient_at(column);
    let q = -negative.coefficient_at(column);
    let divisor = common_divisor(p, q);
    let a = floor_of(q, divisor);
    let b = floor_of(p, divisor);
    made_line(alloc, false, a, positive, b, negative)
}

/// The lines with those of one positive line and each negative one behind them.
fn with_pairs(
    alloc: Global,
    column: u32,
    positive: &Line,
    kept: &[Line],
    mut lines: Vec<Line>,
) -> Result<Option<Vec<Line>>, AllocError>
    ensures { IfOk result (λ all. lines_in all ≡ option_map (λ pairs. lines.items ++ pairs) (specs.every (map (specs.paired_line column positive.now) (specs.negatives column kept.now)))) }
{
    for negative in kept {
        if negative.is_negative_at(column) {
            let made = paired_line(alloc, column, positive, negative)?;
            match made {
                Some(line) => lines.push(line)?,
                None => return Ok(None),
            }
        }
    }
    Ok(Some(lines))
}

/// The lines with those of all pairs behind them.
pub fn with_all_pairs(
    alloc: Global,
    column: u32,
    kept: &[Line],
    mut lines: Vec<Line>,
) -> Result<Option<Vec<Line>>, AllocError>
    ensures { IfOk result (λ all. lines_in all ≡ option_map (λ pairs. lines.items ++ pairs) (specs.pairs_at column kept.now)) }
{
    for positive in kept {
        if positive.is_positive_at(column) {
            let more = with_pairs(alloc, column, positive, kept, lines)?;
            match more {
                Some(more) => lines = more,
                None => return Ok(None),
            }
        }
    }
    Ok(Some(lines))
}
