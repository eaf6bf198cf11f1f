ghost use Rattle.std.specs.Prelude.{◌≡◌, ◌+◌, ◌≤◌, length, IfOk};
ghost use Rattle.lin_rows.specs.Atom.{IsAtom, inequality};
ghost use Rattle.horn_rules.specs.Case.{in_front, placed_at};
ghost use Rattle.horn_rules.specs.Stored.{instance_of};

use lin_rows::{Atom, NormalForm, NormalStop, RowView, normal};
use std::alloc::{AllocError, Global};
use thr_base::Instance;

/// How many of an instance's columns stand in front of those of its target's atoms, where a state has this many: the state before
/// a step, where the atoms are of the state after it.
pub fn in_front(columns: u32, instance: Instance) -> u32
    ensures { result ≡ in_front columns (instance_of instance) }
{
    match instance {
        Instance::Init(_) | Instance::Guar(..) => 0,
        Instance::Own(..) | Instance::Env(..) | Instance::Inter(..) => columns,
    }
}

/// The coefficients of an atom over more columns, of which some stand in front.
fn coefficients_at(
    alloc: Global,
    atom: &Atom,
    before: u32,
    columns: u32,
) -> Result<Vec<i128>, AllocError>
    requires { before + length atom.now.coefficients ≤ columns }
    ensures { IfOk result (λ made. made.items ≡ (placed_at before columns atom.now).coefficients) }
{
    let mut coefficients = Vec::new(alloc);
    coefficients.resize(before as usize, 0)?;
    coefficients.extend_from_slice(atom.coefficients())?;
    coefficients.resize(columns as usize, 0)?;
    Ok(coefficients)
}

/// The atom with these numbers, which is its own normal form.
fn atom_of(alloc: Global, coefficients: &[i128], bound: i128) -> Result<Atom, AllocError>
    requires { IsAtom (inequality coefficients.now bound) }
    ensures { IfOk result (λ atom. atom ≡ inequality coefficients.now bound) }
{
    let row = RowView {
        equal: false,
        coefficients,
        bound,
    };
    match normal(alloc, &row) {
        Ok(NormalForm::Atom(atom)) => Ok(atom),
        Ok(NormalForm::Always) => unreachable!(),
        Ok(NormalForm::Never) => unreachable!(),
        Err(NormalStop::Overflow) => unreachable!(),
        Err(NormalStop::Memory) => Err(AllocError),
    }
}

/// The atom over more columns, of which some stand in front.
pub fn place_atom(alloc: Global, atom: &Atom, before: u32, columns: u32) -> Result<Atom, AllocError>
    requires { before + length atom.now.coefficients ≤ columns }
    ensures { IfOk result (λ made. made ≡ placed_at before columns atom.now) }
{
    let coefficients = coefficients_at(alloc, atom, before, columns)?;
    atom_of(alloc, coefficients.as_slice(), atom.bound())
}
