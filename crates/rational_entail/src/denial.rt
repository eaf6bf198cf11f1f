ghost use Rattle.std.specs.Prelude.{◌≡◌, length, IfOk};
ghost use Rattle.lin_rows.specs.View.{system_of};
ghost use Rattle.farkas_cert.specs.Proof.{with_denial};
ghost use Rattle.farkas_cert.specs.Decision.{IsEvidence};
ghost use Rattle.rational_entail.specs.Entailment.{LeavesAlike, decided_in, Says};

use crate::solver::decide_named;
use farkas_cert::{Cert, Decided, LeaveKind, NamedRows};
use lin_rows::{Atom, NumberList, RowsView};
use std::alloc::{AllocError, Global};

/// Whether rows entail an atom. The evidence is of the rows with the atom's negation as one more row after the last: a certificate
/// that refutes them, or a rational point of them.
#[derive(Debug, Drop)]
pub enum Entailed {
    Yes(Cert),
    No(NumberList, i128),
    Leaves { stage: u32, kind: LeaveKind },
}

/// What an answer on the rows with the negation says of the atom.
fn entailed_by(decided: Decided) -> Entailed
    ensures { decided_in result ≡ decided }
{
    match decided {
        Decided::Refuted(cert) => Entailed::Yes(cert),
        Decided::Point(x, d) => Entailed::No(x, d),
        Decided::Leaves { stage, kind } => Entailed::Leaves { stage, kind },
    }
}

/// Whether the rows entail the atom. No row is copied.
pub fn entails(alloc: Global, rows: &RowsView<'_>, atom: &Atom) -> Result<Entailed, AllocError>
    requires { length atom.now.coefficients ≡ (system_of rows.now).columns }
    ensures says { IfOk result (Says (system_of rows.now) atom.now) }
    ensures evidence { IfOk result (λ entailed. IsEvidence (with_denial (system_of rows.now) atom.now) (decided_in entailed)) }
    ensures leaves { IfOk result (λ entailed. LeavesAlike (with_denial (system_of rows.now) atom.now) (decided_in entailed)) }
{
    let decided = decide_named(alloc, &NamedRows::with_denial(rows, atom))?;
    Ok(entailed_by(decided))
}
