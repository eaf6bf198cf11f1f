ghost use Rattle.std.specs.Prelude.{◌≡◌, ◌<◌, ◌≤◌, ◌+◌, ◌++◌, ℕ, ℤ, true, List, length, drop, codes, Some, None, slice_get, OnOk, IfOk, IfSome, IfNone, IsTrue, ◌↔◌};
ghost use Rattle.std.specs.List.{AllByRecursion};
ghost use Rattle.thr_base.specs.Number.{Fits, number_text};
ghost use Rattle.lin_rows.specs.Row.{Row};
ghost use Rattle.lin_rows.specs.Atom.{IsAtom, inequality};
ghost use Rattle.transition_formula.specs.Program.{IsProgram};
ghost use Rattle.transition_formula.specs.AtomText.{atom_text, atom_width, column_texts, IsAtomText};
ghost use Rattle.transition_formula.specs.inside.AtomReading.{HasTerms, IsWord};

use crate::atom_text::{push_column, push_parts, stays_first};
use crate::program::Program;
use crate::read_term::{behind, is_same, read_term};
use lin_rows::{Atom, NormalForm, NormalStop, RowView, normal};
use std::alloc::{AllocError, Global};
use thr_base::parse_number;

/// The coefficients of terms, and how many bytes the terms take.
#[derive(Drop)]
struct Terms {
    coefficients: Vec<i128>,
    length: usize,
}

/// The text of a column, in place of what `name` was.
fn put_name(name: &mut Vec<u8>, program: &Program, column: usize) -> Result<(), AllocError>
    requires { column < length program.now.columns + length program.now.columns }
    ensures name { OnOk result (slice_get (column_texts program.now.columns) column ≡ Some name.new.items) }
    ensures word { OnOk result (IsWord name.new.items) }
    ensures program { IsProgram program.now }
{
    name.clear();
    push_column(name, program, column)
}

/// Reads the terms of the first columns, each of which has a term or none.
fn read_terms(
    alloc: Global,
    program: &Program,
    text: &[u8],
    width: usize,
) -> Result<Terms, AllocError>
    requires { width ≤ length program.now.columns + length program.now.columns }
    ensures width { IfOk result (λ read. length read.coefficients.items ≡ width) }
    ensures fit { IfOk result (λ read. AllByRecursion Fits read.coefficients.items) }
    ensures within { IfOk result (λ read. read.length ≤ length text.now) }
    ensures read { IfOk result (λ read. (ks : List ℤ) (bound : List ℕ) → AllByRecursion Fits ks → length ks ≡ width → HasTerms true ks (column_texts program.now.columns) bound text.now → (read.coefficients.items ≡ ks) × (drop read.length text.now ≡ codes " <= " ++ bound)) }
{
    let mut coefficients = Vec::new(alloc);
    let mut name = Vec::new(alloc);
    let mut place = 0;
    let mut first = true;
    'columns: for column in 0..width {
        put_name(&mut name, program, column)?;
        let (coefficient, length) = read_term(behind(text, place), first, name.as_slice());
        coefficients.push(coefficient)?;
        first = stays_first(first, coefficient);
        place += length;
    }
    Ok(Terms {
        coefficients,
        length: place,
    })
}

/// Reads the bound behind the terms.
fn read_bound(text: &[u8]) -> Option<i128>
    ensures fits { IfSome result (λ bound. Fits bound) }
    ensures read { (bound : ℤ) → Fits bound → text.now ≡ codes " <= " ++ number_text bound → result ≡ Some bound }
{
    parse_number(text.strip_prefix(b" <= ")?)
}

/// The atom with these numbers where they are an atom's; else another one that says the same, or none.
fn atom_of(alloc: Global, coefficients: &[i128], bound: i128) -> Result<Option<Atom>, AllocError>
    requires coefficients { AllByRecursion Fits coefficients.now }
    requires bound { Fits bound }
    ensures atom { IfOk result (λ made. IfSome made (λ atom. IsAtom atom)) }
    ensures width { IfOk result (λ made. IfSome made (λ atom. length atom.coefficients ≡ length coefficients.now)) }
    ensures same { IsAtom (inequality coefficients.now bound) → IfOk result (λ made. made ≡ Some (inequality coefficients.now bound)) }
{
    let row = RowView {
        equal: false,
        coefficients,
        bound,
    };
    match normal(alloc, &row) {
        Ok(NormalForm::Atom(atom)) => Ok(Some(atom)),
        Ok(NormalForm::Always) => Ok(None),
        Ok(NormalForm::Never) => Ok(None),
        Err(NormalStop::Overflow) => Ok(None),
        Err(NormalStop::Memory) => Err(AllocError),
    }
}

/// Reads the atom whose text this is, if it is one's; else another one or none.
fn read_candidate(
    alloc: Global,
    program: &Program,
    text: &[u8],
    width: usize,
) -> Result<Option<Atom>, AllocError>
    requires { width ≤ length program.now.columns + length program.now.columns }
    ensures atom { IfOk result (λ read. IfSome read (λ atom. IsAtom atom)) }
    ensures width { IfOk result (λ read. IfSome read (λ atom. length atom.coefficients ≡ width)) }
    ensures read { (atom : Row) → IsAtom atom → length atom.coefficients ≡ width → text.now ≡ atom_text program.now.columns atom → IfOk result (λ read. read ≡ Some atom) }
{
    let terms = read_terms(alloc, program, text, width)?;
    match read_bound(behind(text, terms.length)) {
        Some(bound) => atom_of(alloc, terms.coefficients.as_slice(), bound),
        None => Ok(None),
    }
}

/// Whether the text is the atom's.
fn has_text(alloc: Global, program: &Program, atom: &Atom, text: &[u8]) -> Result<bool, AllocError>
    requires { length atom.now.coefficients ≤ length program.now.columns + length program.now.columns }
    ensures { IfOk result (λ same. IsTrue same ↔ (text.now ≡ atom_text program.now.columns atom.now)) }
{
    let mut written = Vec::new(alloc);
    push_parts(&mut written, program, atom)?;
    Ok(is_same(text, written.as_slice()))
}

/// How many columns an atom is over.
fn width_of(program: &Program, env: bool) -> usize
    ensures value { result ≡ atom_width program.now.columns env }
    ensures within { result ≤ length program.now.columns + length program.now.columns }
{
    let columns = program.columns() as usize;
    if env { columns + columns } else { columns }
}

/// The atom whose text this is, over the columns or, with `env`, over those before and after a step.
pub fn read_atom(
    alloc: Global,
    program: &Program,
    text: &[u8],
    env: bool,
) -> Result<Option<Atom>, AllocError>
    ensures some { IfOk result (λ read. IfSome read (λ atom. IsAtomText program.now.columns env atom text.now)) }
    ensures none { IfOk result (λ read. IfNone read ((atom : Row) → ¬ IsAtomText program.now.columns env atom text.now)) }
    // What is printed is read again as the same atom.
    ensures printed { (atom : Row) → IsAtomText program.now.columns env atom text.now → IfOk result (λ read. read ≡ Some atom) }
{
    let candidate = read_candidate(alloc, program, text, width_of(program, env))?;
    let Some(atom) = candidate else {
        return Ok(None);
    };
    if has_text(alloc, program, &atom, text)? {
        Ok(Some(atom))
    } else {
        Ok(None)
    }
}
