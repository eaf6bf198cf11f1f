ghost use Rattle.std.specs.Prelude.{◌≡◌, ◌≤◌, ◌<◌, ◌+◌, ◌++◌, ◌∷◌, [], ◌↔◌, length, take, Some, option_map, IsTrue, IsSome, OnOk, OnErr};
ghost use Rattle.thr_base.specs.Number.{Fits};
ghost use Rattle.lin_rows.specs.Atom.{IsAtom, negation};
ghost use Rattle.lin_rows.specs.View.{row_of, system_of};
ghost use Rattle.farkas_cert.specs.Cert.{AllowsAt, row_numbered};
ghost use Rattle.farkas_cert.specs.Proof.{with_denial, numbers_of};
ghost use Rattle.farkas_cert.specs.NamedRows.{IsNamed};
ghost use Rattle.farkas_cert.specs.inside.Columns.{number_at};

use lin_rows::{Atom, RowView, RowsView, push_opposites};
use std::alloc::AllocError;
use std::marker::Model;

/// The rows that a certificate can name: those of a system and, where an atom is denied, its negation as the last. No row is
/// copied.
#[derive(Drop)]
pub struct NamedRows<'a> {
    rows: RowsView<'a>,
    /// The atom that is denied, as a row.
    denied: Option<RowView<'a>>,
}

impl<'a> Model for NamedRows<'a> {
    ghost use Rattle.std.specs.Prelude.{option_map, IfSome};
    ghost use Rattle.lin_rows.specs.System.{System};
    ghost use Rattle.lin_rows.specs.View.{row_of, system_of};
    ghost use Rattle.farkas_cert.specs.inside.Columns.{perhaps_denying, CanBeDenied};

    ghost Value = { System };

    ghost view = { λ inside. perhaps_denying (system_of inside.rows) (option_map row_of inside.denied) };

    ghost invariant = { λ inside. IfSome inside.denied (λ atom. CanBeDenied (system_of inside.rows) (row_of atom)) };
}

impl<'a> NamedRows<'a> {
    pub fn of(rows: &RowsView<'a>) -> NamedRows<'a>
        ensures { result ≡ system_of rows.now }
    {
        NamedRows {
            rows: *rows,
            denied: None,
        }
    }

    pub fn with_denial(rows: &RowsView<'a>, atom: &'a Atom) -> NamedRows<'a>
        requires { length atom.now.coefficients ≡ (system_of rows.now).columns }
        ensures { result ≡ with_denial (system_of rows.now) atom.now }
    {
        NamedRows {
            rows: *rows,
            denied: Some(RowView {
                equal: false,
                coefficients: atom.coefficients(),
                bound: atom.bound(),
            }),
        }
    }

    pub fn columns(&self) -> u32
        ensures columns { result ≡ self.now.columns }
        ensures named { IsNamed self.now }
    {
        self.rows.columns()
    }

    /// The number of rows.
    pub fn count(&self) -> u32
        ensures count { result ≡ length self.now.rows }
        ensures named { IsNamed self.now }
    {
        if self.denied.is_some() {
            self.rows.count() + 1
        } else {
            self.rows.count()
        }
    }

    /// Whether the row of a number, from 1, is an equality, if there is such a row.
    pub fn equality_of(&self, row: u32) -> Option<bool>
        ensures { result ≡ option_map (λ named. named.equal) (row_numbered self.now.rows row) }
    {
        let place = row.checked_sub(1)?;
        let count = self.rows.count();
        if place < count {
            Some(self.rows.row(place).equal)
        } else if place == count && self.denied.is_some() {
            Some(false)
        } else {
            None
        }
    }

    /// Whether the row is there and allows the multiplier.
    pub(crate) fn allows(&self, row: u32, multiplier: i128) -> bool
        ensures { IsTrue result ↔ AllowsAt (row_numbered self.now.rows row) multiplier }
    {
        match self.equality_of(row) {
            Some(equal) => equal || 0 <= multiplier,
            None => false,
        }
    }

    /// A number of a row, the bound as the last.
    pub(crate) fn number_at(&self, row: u32, column: u32) -> i128
        requires there { IsSome (row_numbered self.now.rows row) }
        requires within { column ≤ self.now.columns }
        ensures { result ≡ number_at (row_numbered self.now.rows row) column }
    {
        let place = row - 1;
        if place < self.rows.count() {
            return number_of(&self.rows.row(place), column);
        }
        match self.denied {
            Some(atom) => denied_number(&atom, column),
            None => unreachable!(),
        }
    }

    /// Appends the coefficients and the bound of the row of a number, from 1.
    pub fn push_numbers(&self, out: &mut Vec<i128>, row: u32) -> Result<(), AllocError>
        requires { IsSome (row_numbered self.now.rows row) }
        ensures ok { OnOk result (out.new.items ≡ out.old.items ++ numbers_of (row_numbered self.now.rows row)) }
        ensures err { OnErr result (out.new.items ≡ out.old.items) }
    {
        let place = row - 1;
        if place < self.rows.count() {
            return push_numbers_of(out, &self.rows.row(place));
        }
        match self.denied {
            Some(atom) => push_negation_of(out, &atom),
            None => unreachable!(),
        }
    }
}

fn number_of(row: &RowView<'_>, column: u32) -> i128
    requires { column ≤ length row.now.coefficients.now }
    ensures { result ≡ number_at (Some (row_of row.now)) column }
{
    match row.coefficients.get(column as usize) {
        Some(coefficient) => *coefficient,
        None => row.bound,
    }
}

/// A number of an atom's negation.
fn denied_number(atom: &RowView<'_>, column: u32) -> i128
    requires atom { IsAtom (row_of atom.now) }
    requires within { column ≤ length atom.now.coefficients.now }
    ensures { result ≡ number_at (Some (negation (row_of atom.now))) column }
{
    match atom.coefficients.get(column as usize) {
        Some(coefficient) => -*coefficient,
        None => -atom.bound - 1,
    }
}

/// Appends a number, or takes off all from a place on.
fn push_or_truncate(out: &mut Vec<i128>, before: usize, number: i128) -> Result<(), AllocError>
    requires { Fits number }
    ensures ok { OnOk result (out.new.items ≡ out.old.items ++ number ∷ []) }
    ensures err { OnErr result (out.new.items ≡ take before out.old.items) }
{
    if out.push(number).is_err() {
        out.truncate(before);
        return Err(AllocError);
    }
    Ok(())
}

fn push_numbers_of(out: &mut Vec<i128>, row: &RowView<'_>) -> Result<(), AllocError>
    requires { Fits row.now.bound }
    ensures ok { OnOk result (out.new.items ≡ out.old.items ++ numbers_of (Some (row_of row.now))) }
    ensures err { OnErr result (out.new.items ≡ out.old.items) }
{
    let before = out.len();
    out.extend_from_slice(row.coefficients)?;
    push_or_truncate(out, before, row.bound)
}

/// Appends the numbers of an atom's negation.
fn push_negation_of(out: &mut Vec<i128>, atom: &RowView<'_>) -> Result<(), AllocError>
    requires { IsAtom (row_of atom.now) }
    ensures ok { OnOk result (out.new.items ≡ out.old.items ++ numbers_of (Some (negation (row_of atom.now)))) }
    ensures err { OnErr result (out.new.items ≡ out.old.items) }
{
    let before = out.len();
    push_opposites(out, atom.coefficients)?;
    push_or_truncate(out, before, -atom.bound - 1)
}
