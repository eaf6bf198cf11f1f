ghost use Rattle.std.specs.Prelude.{◌≡◌, ◌==◌, ◌&&◌, ◌<◌, ◌≤◌, ◌+◌, ◌++◌, ℕ, List, pos, unsigned_abs, true, Some, length, slice_get, OnOk, OnErr};
ghost use Rattle.std.specs.List.{AllByRecursion};
ghost use Rattle.thr_base.specs.Number.{Fits};
ghost use Rattle.transition_formula.specs.Program.{IsProgram};
ghost use Rattle.transition_formula.specs.AtomText.{atom_text, atom_width, column_texts, factor, joint, term_text, terms_text};

use crate::program::Program;
use lin_rows::Atom;
use std::alloc::AllocError;
use thr_base::push_number;

/// The absolute value.
fn size_of(number: i128) -> i128
    requires { Fits number }
    ensures { result ≡ pos (unsigned_abs number) }
{
    if number < 0 { -number } else { number }
}

/// Appends what stands in front of a term.
fn push_joint(out: &mut Vec<u8>, first: bool, coefficient: i128) -> Result<(), AllocError>
    ensures { OnOk result (out.new.items ≡ out.old.items ++ joint first coefficient) }
{
    match (first, coefficient < 0) {
        (true, false) => Ok(()),
        (true, true) => out.extend_from_slice(b"-"),
        (false, false) => out.extend_from_slice(b" + "),
        (false, true) => out.extend_from_slice(b" - "),
    }
}

fn push_factor(out: &mut Vec<u8>, coefficient: i128) -> Result<(), AllocError>
    requires { Fits coefficient }
    ensures { OnOk result (out.new.items ≡ out.old.items ++ factor (unsigned_abs coefficient)) }
{
    let size = size_of(coefficient);
    if size == 1 {
        return Ok(());
    }
    push_number(out, size)?;
    out.extend_from_slice(b"*")
}

/// Appends the text of a column; behind those of a state come those after a step.
pub(crate) fn push_column(
    out: &mut Vec<u8>,
    program: &Program,
    column: usize,
) -> Result<(), AllocError>
    requires { column < length program.now.columns + length program.now.columns }
    ensures text { OnOk result ((text : List ℕ) → slice_get (column_texts program.now.columns) column ≡ Some text → out.new.items ≡ out.old.items ++ text) }
    ensures program { IsProgram program.now }
{
    let columns = program.columns() as usize;
    if column < columns {
        return out.extend_from_slice(program.column(column as u32).text.as_slice());
    }
    out.extend_from_slice(program.column((column - columns) as u32).text.as_slice())?;
    out.extend_from_slice(b"'")
}

/// Appends the term of a column.
fn push_term(
    out: &mut Vec<u8>,
    program: &Program,
    first: bool,
    coefficient: i128,
    column: usize,
) -> Result<(), AllocError>
    requires fits { Fits coefficient }
    requires within { column < length program.now.columns + length program.now.columns }
    ensures { OnOk result ((text : List ℕ) → slice_get (column_texts program.now.columns) column ≡ Some text → out.new.items ≡ out.old.items ++ term_text first coefficient text) }
{
    if coefficient == 0 {
        return Ok(());
    }
    push_joint(out, first, coefficient)?;
    push_factor(out, coefficient)?;
    push_column(out, program, column)
}

/// Whether the next term is the first one.
pub(crate) fn stays_first(first: bool, coefficient: i128) -> bool
    ensures { result ≡ (first && (unsigned_abs coefficient == 0)) }
{
    first && coefficient == 0
}

/// Appends all terms.
fn push_terms(out: &mut Vec<u8>, program: &Program, coefficients: &[i128]) -> Result<(), AllocError>
    requires fit { AllByRecursion Fits coefficients.now }
    requires within { length coefficients.now ≤ length program.now.columns + length program.now.columns }
    ensures { OnOk result (out.new.items ≡ out.old.items ++ terms_text true coefficients.now (column_texts program.now.columns)) }
{
    let mut first = true;
    'terms: for (column, coefficient) in coefficients.iter().enumerate() {
        push_term(out, program, first, *coefficient, column)?;
        first = stays_first(first, *coefficient);
    }
    Ok(())
}

/// Appends the text of an atom; where memory is wanting, a part of it.
pub(crate) fn push_parts(
    out: &mut Vec<u8>,
    program: &Program,
    atom: &Atom,
) -> Result<(), AllocError>
    requires { length atom.now.coefficients ≤ length program.now.columns + length program.now.columns }
    ensures { OnOk result (out.new.items ≡ out.old.items ++ atom_text program.now.columns atom.now) }
{
    push_terms(out, program, atom.coefficients())?;
    out.extend_from_slice(b" <= ")?;
    push_number(out, atom.bound())
}

/// Appends the text of an atom, over the columns or, with `env`, over those before and after a step. It is made apart, so that
/// nothing of it stands there where memory is wanting.
pub fn push_atom(
    out: &mut Vec<u8>,
    program: &Program,
    atom: &Atom,
    env: bool,
) -> Result<(), AllocError>
    requires { length atom.now.coefficients ≡ atom_width program.now.columns env }
    ensures ok { OnOk result (out.new.items ≡ out.old.items ++ atom_text program.now.columns atom.now) }
    ensures err { OnErr result (out.new.items ≡ out.old.items) }
{
    let mut text = Vec::new(*out.allocator());
    push_parts(&mut text, program, atom)?;
    out.extend_from_slice(text.as_slice())
}
