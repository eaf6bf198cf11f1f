ghost use Rattle.std.specs.Prelude.{◌≡◌, IfOk, false, map, pos, ◌<ℤ◌};
ghost use Rattle.std.specs.Int.{int_div_euclid};
ghost use Rattle.lin_rows.specs.Row.{RowFits};
ghost use Rattle.lin_rows.specs.View.{row_of};
ghost use Rattle.lin_rows.specs.Normal.{IsNormalForm, HoldsAlike};
ghost use Rattle.lin_rows.specs.inside.Constant.{IsConstantForm};

use crate::atom::Atom;
use crate::divisor::{divisor_of, floor_of};
use crate::row::RowView;
use std::alloc::{AllocError, Global};

/// What an inequality says: nothing, what never holds, or an atom.
#[derive(Debug, Drop)]
pub enum NormalForm {
    Always,
    Never,
    Atom(Atom),
}

/// Why an inequality has no normal form: the bound of its atom would be the greatest number that fits, which
/// leaves no room for a negation.
#[derive(Clone, Copy, Debug, PartialEq, Eq)]
pub enum NormalStop {
    Overflow,
    Memory,
}

/// What `0 <= bound` says.
fn constant_form(bound: i128) -> NormalForm
    ensures { IsConstantForm bound result }
{
    if 0 <= bound {
        NormalForm::Always
    } else {
        NormalForm::Never
    }
}

/// The quotients, rounded down.
fn floors_of(alloc: Global, numbers: &[i128], divisor: i128) -> Result<Vec<i128>, AllocError>
    requires { pos 0 <ℤ divisor }
    ensures { IfOk result (λ floors. floors.items ≡ map (λ number. int_div_euclid number divisor) numbers.now) }
{
    numbers
        .iter()
        .map(|number| floor_of(*number, divisor))
        .collect(alloc)
}

/// The normal form of an inequality. It holds at exactly the same whole points.
pub fn normal(alloc: Global, row: &RowView<'_>) -> Result<NormalForm, NormalStop>
    requires inequality { row.now.equal ≡ false }
    requires fits { RowFits (row_of row.now) }
    ensures form { IsNormalForm (row_of row.now) result }
    ensures meaning { IfOk result (HoldsAlike (row_of row.now)) }
{
    let divisor = divisor_of(row.coefficients);
    if divisor == 0 {
        return Ok(constant_form(row.bound));
    }
    let bound = floor_of(row.bound, divisor);
    if bound == i128::MAX {
        return Err(NormalStop::Overflow);
    }
    match floors_of(alloc, row.coefficients, divisor) {
        Ok(coefficients) => Ok(NormalForm::Atom(Atom::of(coefficients, bound))),
        Err(AllocError) => Err(NormalStop::Memory),
    }
}
