ghost use Rattle.std.specs.Prelude.{IfOk};
ghost use Rattle.lin_rows.specs.View.{system_of};
ghost use Rattle.farkas_cert.specs.Decision.{IsEvidence};
ghost use Rattle.rational_entail.specs.Entailment.{LeavesAlike};

use farkas_cert::{Decided, NamedRows};
use lin_rows::RowsView;
use std::alloc::{AllocError, Global};
use tableau_elim::{Tried, try_decide_named};

/// What is found of the rows of a system, or of these and the negation of an atom: by the tableau, and where that gives up by the
/// elimination.
pub(crate) fn decide_named(alloc: Global, rows: &NamedRows<'_>) -> Result<Decided, AllocError>
    ensures evidence { IfOk result (IsEvidence rows.now) }
    ensures leaves { IfOk result (LeavesAlike rows.now) }
{
    let tried = try_decide_named(alloc, rows)?;
    match tried {
        Tried::Refuted(cert) => Ok(Decided::Refuted(cert)),
        Tried::Point(x, d) => Ok(Decided::Point(x, d)),
        Tried::GaveUp => plain_elim::decide_named(alloc, rows),
    }
}

/// A certificate that refutes the rows, a rational point of them, or the stage and the kind with which they are left undecided.
pub fn decide(alloc: Global, rows: &RowsView<'_>) -> Result<Decided, AllocError>
    ensures evidence { IfOk result (IsEvidence (system_of rows.now)) }
    ensures leaves { IfOk result (LeavesAlike (system_of rows.now)) }
{
    decide_named(alloc, &NamedRows::of(rows))
}
