ghost use Rattle.std.specs.Prelude.{◌≡◌, ◌+◌, ◌-◌, ◌^◌, ◌<◌, ◌≤◌, ◌∷◌, [], length, map, filter, filter_map, pos, IsSome, OnOk};
ghost use Rattle.std.specs.List.{AllByRecursion};
ghost use Rattle.thr_base.specs.Held.{holds, positions};
ghost use Rattle.thr_base.specs.Limits.{most_predicates};
ghost use Rattle.lin_rows.specs.System.{with_row, with_rows};
ghost use Rattle.transition_formula.specs.Program.{Thread, IsThreadOf, at_number};
ghost use Rattle.transition_formula.specs.Rows.{column_is};
ghost use Rattle.horn_rules.specs.Case.{wider_row};
ghost use Rattle.horn_rules.specs.Fact.{atoms_at};

use lin_rows::{Atom, Rows};
use std::alloc::AllocError;
use thr_base::{Loc, MOST_PREDICATES, ThreadNo, holds};
use transition_formula::{Program, push_column_is};

/// Appends an atom of the first columns. Here and below, `row` is room for the coefficients.
fn push_atom(rows: &mut Rows, row: &mut Vec<i128>, atom: &Atom) -> Result<(), AllocError>
    requires within { length atom.now.coefficients ≤ rows.old.columns }
    requires room { length rows.old.rows < 2 ^ 32 - 2 }
    ensures { OnOk result (rows.new ≡ with_row rows.old (wider_row (rows.old.columns - length atom.now.coefficients) atom.now)) }
{
    let width = rows.view().columns();
    row.clear();
    row.extend_from_slice(atom.coefficients())?;
    row.resize(width as usize, 0)?;
    rows.push(false, row.as_slice(), atom.bound())
}

/// Appends the atom at a position where it is held.
fn push_if_held(
    rows: &mut Rows,
    row: &mut Vec<i128>,
    columns: u32,
    atoms: &[Atom],
    held: u128,
    position: u32,
) -> Result<(), AllocError>
    requires within { columns ≤ rows.old.columns }
    requires one_each { AllByRecursion (λ atom. length atom.coefficients ≡ columns) atoms.now }
    requires from_1 { 0 < position }
    requires to_128 { position ≤ most_predicates }
    requires room { length rows.old.rows < 2 ^ 32 - 2 }
    ensures { OnOk result (rows.new ≡ with_rows rows.old (map (wider_row (rows.old.columns - columns)) (filter_map (at_number atoms.now) (filter (holds held) (position ∷ []))))) }
{
    if !holds(held, position) {
        return Ok(());
    }
    match atoms.get(position as usize - 1) {
        Some(atom) => push_atom(rows, row, atom),
        None => Ok(()),
    }
}

/// Appends the atoms that are held, over the first columns.
pub(crate) fn push_held(
    rows: &mut Rows,
    row: &mut Vec<i128>,
    columns: u32,
    atoms: &[Atom],
    held: u128,
) -> Result<(), AllocError>
    requires within { columns ≤ rows.old.columns }
    requires one_each { AllByRecursion (λ atom. length atom.coefficients ≡ columns) atoms.now }
    requires room { length rows.old.rows < 2 ^ 31 }
    ensures few { OnOk result (length rows.new.rows ≤ length rows.old.rows + most_predicates) }
    ensures rows { OnOk result (rows.new ≡ with_rows rows.old (map (wider_row (rows.old.columns - columns)) (atoms_at atoms.now (positions held)))) }
{
    'positions: for position in 1..MOST_PREDICATES + 1 {
        push_if_held(rows, row, columns, atoms, held, position)?;
    }
    Ok(())
}

/// Appends that a thread is at a location.
pub(crate) fn push_location(
    rows: &mut Rows,
    row: &mut Vec<i128>,
    program: &Program,
    i: ThreadNo,
    l: Loc,
) -> Result<(), AllocError>
    requires thread { IsSome (at_number program.now.threads i.0) }
    requires within { length program.now.columns ≤ rows.old.columns }
    requires room { length rows.old.rows < 2 ^ 31 }
    ensures columns { OnOk result (rows.new.columns ≡ rows.old.columns) }
    ensures count { OnOk result (length rows.new.rows ≡ length rows.old.rows + 1) }
    ensures row { OnOk result ((thread : Thread) → IsThreadOf program.now i.0 thread → rows.new ≡ with_row rows.old (column_is rows.old.columns thread.counter (pos l.0))) }
{
    let column = program.counter(i);
    push_column_is(rows, row, column, i128::from(l.0))?;
    Ok(())
}
