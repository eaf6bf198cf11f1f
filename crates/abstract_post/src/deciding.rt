ghost use Rattle.std.specs.Prelude.{◌≡◌, ◌≢◌, ℕ, ◌+◌, ◌-◌, ◌^◌, ◌<◌, ◌≤◌, None, length, IfOk};
ghost use Rattle.std.specs.List.{AllByRecursion};
ghost use Rattle.thr_base.specs.Held.{holds};
ghost use Rattle.thr_base.specs.Limits.{most_predicates};
ghost use Rattle.lin_rows.specs.View.{system_of};
ghost use Rattle.farkas_cert.specs.Cert.{IsRefuted};
ghost use Rattle.rational_entail.specs.Entailment.{leave_of};
ghost use Rattle.horn_rules.specs.Case.{placed_at};
ghost use Rattle.abstract_post.specs.inside.Found.{Tells, IsFound};

use farkas_cert::{Decided, LeaveKind, refuted_has_no_point};
use horn_rules::place_atom;
use lin_rows::{Atom, RowsView};
use rational_entail::{Entailed, decide, entails};
use std::alloc::{AllocError, Global};
use thr_base::with_position;

/// What a solver finds of an instance's rows and the predicates of its target.
#[derive(Clone, Copy, Debug, PartialEq, Eq)]
pub enum Found {
    Refuted,
    /// The rows have a point, and these predicates follow from them.
    Held(u128),
    Left(LeaveKind),
}

/// Whether the rows entail an atom, over their columns, or the kind with which that is left undecided.
fn entails_placed(
    alloc: Global,
    rows: &RowsView<'_>,
    before: u32,
    atom: &Atom,
) -> Result<Result<bool, LeaveKind>, AllocError>
    requires { before + length atom.now.coefficients ≤ (system_of rows.now).columns }
    ensures { IfOk result (Tells (system_of rows.now) (placed_at before (system_of rows.now).columns atom.now)) }
{
    let atom = place_atom(alloc, atom, before, rows.columns())?;
    let entailed = entails(alloc, rows, &atom)?;
    match entailed {
        Entailed::Yes(_) => Ok(Ok(true)),
        Entailed::No(..) => Ok(Ok(false)),
        Entailed::Leaves { kind, .. } => Ok(Err(kind)),
    }
}

/// The held positions with one more above them, where it holds.
fn with_next(held: u128, position: u32, entailed: bool) -> u128
    requires before { held < 2 ^ (position - 1) }
    requires from_1 { 0 < position }
    requires to_128 { position ≤ most_predicates }
    ensures within { result < 2 ^ position }
    ensures there { holds result position ≡ entailed }
    ensures others { (k : ℕ) → 0 < k → k ≢ position → holds result k ≡ holds held k }
{
    if entailed {
        with_position(held, position)
    } else {
        held
    }
}

/// Which of the atoms rows entail that have a point, or the kind with which the first is left that is left undecided.
fn decide_atoms(
    alloc: Global,
    rows: &RowsView<'_>,
    before: u32,
    atoms: &[Atom],
) -> Result<Found, AllocError>
    requires few { length atoms.now ≤ most_predicates }
    requires within { AllByRecursion (λ atom. before + length atom.coefficients ≤ (system_of rows.now).columns) atoms.now }
    requires has_point { ¬ IsRefuted (system_of rows.now) }
    requires decided { leave_of (system_of rows.now) ≡ None }
    ensures { IfOk result (IsFound (system_of rows.now) (placed_at before (system_of rows.now).columns) atoms.now) }
{
    let mut held = 0;
    'atoms: for (place, atom) in atoms.iter().enumerate() {
        match entails_placed(alloc, rows, before, atom)? {
            Ok(entailed) => held = with_next(held, place as u32 + 1, entailed),
            Err(kind) => return Ok(Found::Left(kind)),
        }
    }
    Ok(Found::Held(held))
}

/// What a solver finds of rows, and of atoms over their columns, of which `before` stand in front of each atom's.
pub fn solve(
    alloc: Global,
    rows: &RowsView<'_>,
    before: u32,
    atoms: &[Atom],
) -> Result<Found, AllocError>
    requires few { length atoms.now ≤ most_predicates }
    requires within { AllByRecursion (λ atom. before + length atom.coefficients ≤ (system_of rows.now).columns) atoms.now }
    ensures { IfOk result (IsFound (system_of rows.now) (placed_at before (system_of rows.now).columns) atoms.now) }
{
    refuted_has_no_point();
    let decided = decide(alloc, rows)?;
    match decided {
        Decided::Refuted(_) => Ok(Found::Refuted),
        Decided::Point(..) => decide_atoms(alloc, rows, before, atoms),
        Decided::Leaves { kind, .. } => Ok(Found::Left(kind)),
    }
}
