ghost use Rattle.std.specs.Prelude.{◌≡◌, ◌<◌, ◌^◌, ◌↔◌, length, IfOk, IsTrue};
ghost use Rattle.std.specs.List.{AllByRecursion};
ghost use Rattle.thr_base.specs.Number.{Fits};
ghost use Rattle.lin_rows.specs.View.{system_of};
ghost use Rattle.farkas_cert.specs.Cert.{InOrder, AllowsAt, row_numbered};
ghost use Rattle.farkas_cert.specs.Line.{nonzero_pairs};
ghost use Rattle.farkas_cert.specs.Proof.{Entails, Proves, with_denial};
ghost use Rattle.farkas_cert.specs.Answer.{IsCertAnswer};

use crate::answers::CertAnswer;
use crate::columns::weigh;
use crate::named_rows::NamedRows;
use crate::numbers::is_nonzero;
use lin_rows::{Atom, RowsView};
use std::alloc::{AllocError, Global};
use std::marker::Model;

/// Numbers of rows, from 1, with their multipliers. Rows that are not listed have 0.
#[derive(Debug, Drop)]
pub struct Cert {
    pairs: Vec<(u32, i128)>,
}

impl Model for Cert {
    ghost use Rattle.farkas_cert.specs.Cert.{Pairs};

    ghost Value = { Pairs };

    ghost view = { λ inside. inside.pairs.items };
}

impl Cert {
    pub fn of(pairs: Vec<(u32, i128)>) -> Cert
        ensures { result ≡ pairs.items }
    {
        Cert { pairs }
    }

    /// The multipliers that are not 0, with the numbers of their rows.
    pub fn of_multipliers(alloc: Global, multipliers: &[i128]) -> Result<Cert, AllocError>
        requires few { length multipliers.now < 2 ^ 32 }
        requires fit { AllByRecursion Fits multipliers.now }
        ensures { IfOk result (λ cert. cert ≡ nonzero_pairs 1 multipliers.now) }
    {
        let mut pairs = Vec::new(alloc);
        for (place, multiplier) in multipliers.iter().enumerate() {
            if is_nonzero(*multiplier) {
                pairs.push((place as u32 + 1, *multiplier))?;
            }
        }
        Ok(Cert::of(pairs))
    }

    pub fn pairs(&self) -> &[(u32, i128)]
        ensures { result.now ≡ self.now }
    {
        self.pairs.as_slice()
    }
}

/// Whether a pair may stand behind one of row `last`: the numbers rise, and the row allows the multiplier.
fn follows(rows: &NamedRows<'_>, last: u32, pair: (u32, i128)) -> bool
    ensures { IsTrue result ↔ ((last < pair.0) × AllowsAt (row_numbered rows.now.rows pair.0) pair.1) }
{
    let (row, multiplier) = pair;
    last < row && rows.allows(row, multiplier)
}

fn is_in_order(rows: &NamedRows<'_>, cert: &[(u32, i128)]) -> bool
    ensures { IsTrue result ↔ InOrder rows.now.rows 0 cert.now }
{
    let mut last = 0;
    'pairs: for pair in cert {
        if !follows(rows, last, *pair) {
            return false;
        }
        last = pair.0;
    }
    true
}

/// Whether a certificate refutes the rows that it can name, by products and sums that fit.
pub fn check_named(rows: &NamedRows<'_>, cert: &[(u32, i128)]) -> CertAnswer
    ensures answer { IsCertAnswer rows.now cert.now result }
    ensures proves { (result ≡ CertAnswer.Proves) ↔ Proves rows.now cert.now }
{
    if is_in_order(rows, cert) {
        weigh(rows, cert)
    } else {
        CertAnswer::Fails
    }
}

/// Whether a certificate refutes the rows, by products and sums that fit.
pub fn check_cert(rows: &RowsView<'_>, cert: &[(u32, i128)]) -> CertAnswer
    ensures answer { IsCertAnswer (system_of rows.now) cert.now result }
    ensures proves { (result ≡ CertAnswer.Proves) ↔ Proves (system_of rows.now) cert.now }
{
    check_named(&NamedRows::of(rows), cert)
}

/// Whether a certificate refutes the rows together with the negation of an atom, which is one more row after
/// the last.
pub fn check_entails(rows: &RowsView<'_>, atom: &Atom, cert: &[(u32, i128)]) -> CertAnswer
    requires { length atom.now.coefficients ≡ (system_of rows.now).columns }
    ensures answer { IsCertAnswer (with_denial (system_of rows.now) atom.now) cert.now result }
    ensures proves { (result ≡ CertAnswer.Proves) ↔ Proves (with_denial (system_of rows.now) atom.now) cert.now }
    ensures entailed { result ≡ CertAnswer.Proves → Entails (system_of rows.now) atom.now }
{
    check_named(&NamedRows::with_denial(rows, atom), cert)
}
