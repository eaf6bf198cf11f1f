ghost use Rattle.std.specs.Prelude.{◌≡◌, ◌↔◌, ◌+◌, ◌^◌, ◌<◌, ◌≤◌, Some, length, slice_get, IfOk, IsTrue};
ghost use Rattle.std.specs.List.{AllByRecursion};
ghost use Rattle.thr_base.specs.Held.{positions};
ghost use Rattle.farkas_cert.specs.Proof.{with_denial};
ghost use Rattle.horn_rules.specs.Case.{placed_at};
ghost use Rattle.horn_rules.specs.Fact.{atoms_at};
ghost use Rattle.annotation_form.specs.Passes.{CertificateProves, CertificatesProve};
ghost use Rattle.annotation_check.specs.inside.Cases.{told_by};
ghost use Rattle.annotation_check.specs.inside.Proving.{IsNumberOf};

use crate::stored_case::StoredCase;
use annotation_form::Annotation;
use farkas_cert::{CertAnswer, check_cert, check_entails};
use horn_rules::place_atom;
use lin_rows::Atom;
use std::alloc::{AllocError, Global};
use thr_base::positions_of;

fn proves(answer: CertAnswer) -> bool
    ensures { IsTrue result ↔ (answer ≡ CertAnswer.Proves) }
{
    match answer {
        CertAnswer::Proves => true,
        CertAnswer::Fails => false,
        CertAnswer::Overflow { .. } => false,
    }
}

/// Whether the certificate of a number refutes the rows.
pub(crate) fn refutes(annotation: &Annotation, stored: &StoredCase, c: u32) -> bool
    requires { IsNumberOf annotation.now.certificates c }
    ensures { IsTrue result ↔ CertificateProves annotation.now stored.now.rows c }
{
    proves(check_cert(&stored.rows.view(), annotation.cert(c)))
}

/// Whether the rows entail an atom, where it stands over them, by the certificate of a number.
fn entails(
    alloc: Global,
    annotation: &Annotation,
    stored: &StoredCase,
    atom: &Atom,
    c: u32,
) -> Result<bool, AllocError>
    requires number { IsNumberOf annotation.now.certificates c }
    requires within { stored.now.before + length atom.now.coefficients ≤ stored.now.rows.columns }
    ensures { IfOk result (λ entailed. IsTrue entailed ↔ CertificateProves annotation.now (with_denial stored.now.rows (placed_at stored.now.before stored.now.rows.columns atom.now)) c) }
{
    let rows = stored.rows.view();
    let atom = place_atom(alloc, atom, stored.before, rows.columns())?;
    Ok(proves(check_entails(&rows, &atom, annotation.cert(c))))
}

/// The atom at one of the positions.
fn atom_at<'a>(atoms: &'a [Atom], positions: &[u32], place: usize) -> &'a Atom
    requires place { place < length positions.now }
    requires within { AllByRecursion (IsNumberOf atoms.now) positions.now }
    ensures { slice_get (atoms_at atoms.now positions.now) place ≡ Some result.now }
{
    &atoms[positions[place] as usize - 1]
}

/// Whether the rows entail the atoms that are held, each by its certificate.
pub(crate) fn entails_each(
    alloc: Global,
    annotation: &Annotation,
    stored: &StoredCase,
    atoms: &[Atom],
    held: u128,
    certificates: &[u32],
) -> Result<bool, AllocError>
    requires held { held < 2 ^ length atoms.now }
    requires few { length atoms.now ≤ 128 }
    requires one_each { length certificates.now ≡ length (atoms_at atoms.now (positions held)) }
    requires numbers { AllByRecursion (IsNumberOf annotation.now.certificates) certificates.now }
    requires within { AllByRecursion (λ atom. stored.now.before + length atom.coefficients ≤ stored.now.rows.columns) atoms.now }
    ensures { IfOk result (λ entailed. IsTrue entailed ↔ CertificatesProve annotation.now (told_by stored.now) certificates.now (atoms_at atoms.now (positions held))) }
{
    let positions = positions_of(alloc, held)?;
    for place in 0..certificates.len() {
        let atom = atom_at(atoms, positions.as_slice(), place);
        if !entails(alloc, annotation, stored, atom, certificates[place])? {
            return Ok(false);
        }
    }
    Ok(true)
}
