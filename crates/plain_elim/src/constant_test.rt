ghost use Rattle.std.specs.Prelude.{◌≡◌, ◌≤◌, IfOk, length, filter};
ghost use Rattle.std.specs.List.{AllByRecursion};
ghost use Rattle.farkas_cert.specs.Elimination as specs;
ghost use Rattle.farkas_cert.specs.Line as line_specs;
ghost use Rattle.plain_elim.specs.inside.Held.{work_of, next_of};
ghost use Rattle.plain_elim.specs.inside.Stages.{IsWide};

use crate::line::Line;
use crate::refuting::refutation;
use crate::work::{Next, Work};
use farkas_cert::NamedRows;
use std::alloc::{AllocError, Global};

/// The lines with a variable.
fn with_variable(alloc: Global, columns: u32, lines: Vec<Line>) -> Result<Vec<Line>, AllocError>
    ensures { IfOk result (λ kept. kept.items ≡ filter (line_specs.has_variable columns) lines.items) }
{
    let mut kept = Vec::with_capacity(alloc, lines.len())?;
    for line in lines {
        if line.has_variable(columns) {
            kept.push(line)?;
        }
    }
    Ok(kept)
}

/// The first false line without a variable refutes; the other lines without a variable are removed.
pub fn constant_test(alloc: Global, rows: &NamedRows<'_>, work: Work) -> Result<Next, AllocError>
    requires wide { AllByRecursion (IsWide rows.now) work.lines.items }
    requires few { length work.kept.items ≤ rows.now.columns }
    ensures { IfOk result (λ next. next_of rows.now next ≡ specs.constant_test rows.now (length work.kept.items) (work_of work)) }
{
    let columns = rows.columns();
    let refuted = refutation(alloc, rows, work.lines.as_slice())?;
    match refuted {
        Some(cert) => Ok(Next::Refutes(cert, work.kept.len() as u32)),
        None => {
            let lines = with_variable(alloc, columns, work.lines)?;
            Ok(Next::Goes(Work {
                lines,
                kept: work.kept,
                made: work.made,
            }))
        }
    }
}
