ghost use Rattle.std.specs.Prelude.{◌≡◌, ◌&&◌, pos, int_lt, IfOk};
ghost use Rattle.std.specs.List.{AllByRecursion};
ghost use Rattle.farkas_cert.specs.Line as specs;
ghost use Rattle.plain_elim.specs.inside.Stages.{IsWide, refutation_of};

use crate::line::Line;
use farkas_cert::{Cert, NamedRows};
use lin_rows::opposites_of;
use std::alloc::{AllocError, Global};

/// Whether a false line refutes by its multipliers with the other signs.
fn is_turned(line: &Line, columns: u32) -> bool
    ensures { result ≡ (line.now.equal && int_lt (pos 0) (specs.bound_of columns line.now)) }
{
    line.is_equality() && 0 < line.bound(columns)
}

/// The multipliers by which a false line refutes, as a certificate.
fn certificate(alloc: Global, rows: &NamedRows<'_>, line: &Line) -> Result<Cert, AllocError>
    requires { IsWide rows.now line.now }
    ensures { IfOk result (λ cert. cert ≡ specs.nonzero_pairs 1 (specs.refuting_multipliers rows.now.columns line.now)) }
{
    let columns = rows.columns();
    let multipliers = line.multipliers(columns);
    if is_turned(line, columns) {
        let opposites = opposites_of(alloc, multipliers)?;
        Cert::of_multipliers(alloc, opposites.as_slice())
    } else {
        Cert::of_multipliers(alloc, multipliers)
    }
}

/// The certificate of the first false line, where there is one.
pub fn refutation(
    alloc: Global,
    rows: &NamedRows<'_>,
    lines: &[Line],
) -> Result<Option<Cert>, AllocError>
    requires { AllByRecursion (IsWide rows.now) lines.now }
    ensures { IfOk result (λ found. found ≡ refutation_of rows.now lines.now) }
{
    let columns = rows.columns();
    match lines.iter().find(|line| line.is_false(columns)) {
        Some(line) => {
            let cert = certificate(alloc, rows, line)?;
            Ok(Some(cert))
        }
        None => Ok(None),
    }
}
