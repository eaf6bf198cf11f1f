ghost use Rattle.std.specs.Prelude.{◌≡◌, ◌<◌, IfOk, Some, map, length, position};
ghost use Rattle.farkas_cert.specs.Elimination as specs;
ghost use Rattle.plain_elim.specs.inside.Held.{work_of, next_of};
ghost use Rattle.plain_elim.specs.inside.Stages.{lines_in};

use crate::combination::made_line;
use crate::factors::{common_divisor, with_sign_of};
use crate::follows::follows;
use crate::kept::Kept;
use crate::line::Line;
use crate::work::{Next, Work};
use farkas_cert::{NamedRows, is_nonzero};
use lin_rows::floor_of;
use std::alloc::{AllocError, Global};

/// The line from which the equality takes the column out. A line without the column stays as it is.
fn substituted_line(
    alloc: Global,
    column: u32,
    equality: &Line,
    line: Line,
) -> Result<Option<Line>, AllocError>
    ensures { IfOk result (λ made. made ≡ specs.substituted_line column equality.now line) }
{
    let q = line.coefficient_at(column);
    if !is_nonzero(q) {
        return Ok(Some(line));
    }
    let p = equality.coefficient_at(column);
    let divisor = common_divisor(p, q);
    let a = floor_of(p.abs(), divisor);
    let b = -floor_of(with_sign_of(p, q), divisor);
    made_line(alloc, line.is_equality(), a, &line, b, equality)
}

/// All lines, each replaced in its place.
fn substituted_lines(
    alloc: Global,
    column: u32,
    equality: &Line,
    lines: Vec<Line>,
) -> Result<Option<Vec<Line>>, AllocError>
    ensures { IfOk result (λ made. lines_in made ≡ specs.every (map (specs.substituted_line column equality.now) lines.items)) }
{
    let mut all = Vec::with_capacity(alloc, lines.len())?;
    for line in lines {
        let made = substituted_line(alloc, column, equality, line)?;
        match made {
            Some(made) => all.push(made)?,
            None => return Ok(None),
        }
    }
    Ok(Some(all))
}

/// The stage of the first equality, which stands at a place.
pub fn equality_stage(
    alloc: Global,
    rows: &NamedRows<'_>,
    work: Work,
    place: usize,
) -> Result<Next, AllocError>
    requires few { length work.kept.items < rows.now.columns }
    requires first { position (λ line. line.equal) work.lines.items ≡ Some place }
    ensures { IfOk result (λ next. next_of rows.now next ≡ specs.take_column_out rows.now (work_of work)) }
{
    let mut lines = work.lines;
    let equality = lines.remove(place);
    let column = equality.lowest_column(rows.columns());
    let made = substituted_lines(alloc, column, &equality, lines)?;
    follows(work.kept, Kept::Solved(column, equality), work.made, made)
}
