ghost use Rattle.std.specs.Prelude.{◌≡◌, length, IfOk};
ghost use Rattle.lin_rows.specs.System.{HasWidths};
ghost use Rattle.lin_rows.specs.View.{system_of};
ghost use Rattle.farkas_cert.specs.Elimination as specs;
ghost use Rattle.farkas_cert.specs.Decision.{outcome_in, IsEvidence};
ghost use Rattle.plain_elim.specs.inside.Held.{work_of, refuted_by, IsReady};

use crate::point::point_of;
use crate::stage::{beginning, stage};
use crate::work::{Next, Work};
use farkas_cert::{Cert, CertAnswer, Decided, LeaveKind, NamedRows, check_named};
use lin_rows::RowsView;
use std::alloc::{AllocError, Global};

/// The answer where multipliers refute the rows, by the check of their products and sums.
fn refutation_outcome(rows: &NamedRows<'_>, cert: Cert, number: u32) -> Decided
    requires widths { HasWidths rows.now }
    requires leads { specs.outcome_of rows.now ≡ refuted_by rows.now cert number }
    ensures { outcome_in result ≡ specs.outcome_of rows.now }
{
    match check_named(rows, cert.pairs()) {
        CertAnswer::Proves => Decided::Refuted(cert),
        CertAnswer::Fails | CertAnswer::Overflow { .. } => Decided::Leaves {
            stage: number,
            kind: LeaveKind::Overflow,
        },
    }
}

/// Stages until no line is left, and then the point. Each takes another column.
fn stages(
    alloc: Global,
    rows: &NamedRows<'_>,
    columns: u32,
    first: Work,
) -> Result<Decided, AllocError>
    requires columns { columns ≡ rows.now.columns }
    requires widths { HasWidths rows.now }
    requires ready { IsReady rows.now (work_of first) }
    requires fresh { length first.kept.items ≡ 0 }
    requires leads { specs.outcome_of rows.now ≡ specs.stages rows.now.columns rows.now (work_of first) }
    ensures { IfOk result (λ decided. outcome_in decided ≡ specs.outcome_of rows.now) }
{
    let mut work = first;
    'stages: for taken in 0..columns {
        if work.lines.is_empty() {
            return point_of(alloc, columns, work.kept);
        }
        let next = stage(alloc, rows, work)?;
        match next {
            Next::Goes(more) => work = more,
            Next::Refutes(cert, number) => return Ok(refutation_outcome(rows, cert, number)),
            Next::Leaves(number, kind) => {
                return Ok(Decided::Leaves {
                    stage: number,
                    kind,
                });
            }
        }
    }
    point_of(alloc, columns, work.kept)
}

/// What the elimination of the rows that a certificate can name comes to: those of a system, or these and the negation of an
/// atom.
pub fn decide_named(alloc: Global, rows: &NamedRows<'_>) -> Result<Decided, AllocError>
    ensures outcome { IfOk result (λ decided. outcome_in decided ≡ specs.outcome_of rows.now) }
    ensures evidence { IfOk result (IsEvidence rows.now) }
{
    let columns = rows.columns();
    let next = beginning(alloc, rows)?;
    match next {
        Next::Goes(work) => stages(alloc, rows, columns, work),
        Next::Refutes(cert, number) => Ok(refutation_outcome(rows, cert, number)),
        Next::Leaves(stage, kind) => Ok(Decided::Leaves { stage, kind }),
    }
}

/// What the elimination of the rows comes to: a certificate, a point, or the stage at which it leaves, from 1, or 0 where it
/// leaves before the first.
pub fn decide(alloc: Global, rows: &RowsView<'_>) -> Result<Decided, AllocError>
    ensures outcome { IfOk result (λ decided. outcome_in decided ≡ specs.outcome_of (system_of rows.now)) }
    ensures evidence { IfOk result (IsEvidence (system_of rows.now)) }
{
    decide_named(alloc, &NamedRows::of(rows))
}
