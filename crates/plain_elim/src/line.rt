ghost use Rattle.std.specs.Prelude.{◌≡◌, ◌<◌, length, pos, int_lt};
ghost use Rattle.std.specs.List.{AllByRecursion, position_or_len};
ghost use Rattle.thr_base.specs.Number.{Fits};
ghost use Rattle.farkas_cert.specs.Line as specs;

use farkas_cert::{is_nonzero, number_at};
use std::marker::Model;

/// A row that the elimination works on: its coefficients, its bound, and a multiplier for each given row. All of them fit.
#[derive(Debug, Drop)]
pub struct Line {
    equal: bool,
    /// The place of the first number that is not 0, so that no one looks for it again.
    first: usize,
    numbers: Vec<i128>,
}

impl Model for Line {
    ghost use Rattle.farkas_cert.specs.Line as lines;
    ghost use Rattle.plain_elim.specs.inside.LineParts.{IsHeld};

    ghost Value = { lines.Line };

    ghost view = { λ inside. record { equal = inside.equal; numbers = inside.numbers.items } };

    ghost invariant = { λ inside. IsHeld inside.first inside.numbers.items };
}

/// The place of the first number that is not 0, or their count.
fn first_nonzero(numbers: &[i128]) -> usize
    ensures { result ≡ position_or_len specs.is_nonzero numbers.now }
{
    numbers
        .iter()
        .take_while(|number| !is_nonzero(**number))
        .count()
}

impl Line {
    pub fn of(equal: bool, numbers: Vec<i128>) -> Line
        requires { AllByRecursion Fits numbers.items }
        ensures { result ≡ record { equal = equal; numbers = numbers.items } }
    {
        Line {
            equal,
            first: first_nonzero(numbers.as_slice()),
            numbers,
        }
    }

    pub fn is_equality(&self) -> bool
        ensures { result ≡ self.now.equal }
    {
        self.equal
    }

    /// The coefficients, the bound and the multipliers, in this order.
    pub fn numbers(&self) -> &[i128]
        ensures numbers { result.now ≡ self.now.numbers }
        ensures fit { AllByRecursion Fits self.now.numbers }
    {
        self.numbers.as_slice()
    }

    pub fn coefficient_at(&self, column: u32) -> i128
        ensures coefficient { result ≡ specs.coefficient_at column self.now }
        ensures fits { Fits result }
    {
        number_at(self.numbers.as_slice(), column as usize)
    }

    pub fn has_column(&self, column: u32) -> bool
        ensures { result ≡ specs.is_nonzero (specs.coefficient_at column self.now) }
    {
        is_nonzero(self.coefficient_at(column))
    }

    pub fn is_positive_at(&self, column: u32) -> bool
        ensures { result ≡ int_lt (pos 0) (specs.coefficient_at column self.now) }
    {
        0 < self.coefficient_at(column)
    }

    pub fn is_negative_at(&self, column: u32) -> bool
        ensures { result ≡ int_lt (specs.coefficient_at column self.now) (pos 0) }
    {
        self.coefficient_at(column) < 0
    }

    pub fn bound(&self, columns: u32) -> i128
        ensures bound { result ≡ specs.bound_of columns self.now }
        ensures fits { Fits result }
    {
        number_at(self.numbers.as_slice(), columns as usize)
    }

    /// The multipliers of the given rows.
    pub fn multipliers(&self, columns: u32) -> &[i128]
        requires { columns < length self.now.numbers }
        ensures multipliers { result.now ≡ specs.multipliers_of columns self.now }
        ensures fit { AllByRecursion Fits result.now }
    {
        &self.numbers.as_slice()[columns as usize + 1..]
    }

    pub fn has_variable(&self, columns: u32) -> bool
        ensures { result ≡ specs.has_variable columns self.now }
    {
        self.first < self.numbers.len().min(columns as usize)
    }

    /// The first column with a coefficient, or the number of columns where there is none.
    pub fn lowest_column(&self, columns: u32) -> u32
        ensures { result ≡ specs.lowest_column columns self.now }
    {
        self.first.min(columns as usize) as u32
    }

    #[tactic(auto, unfolding(farkas_cert::specs::Line::is_false))]
    /// Whether the line has no variable, and is false.
    pub fn is_false(&self, columns: u32) -> bool
        ensures { result ≡ specs.is_false columns self.now }
    {
        !self.has_variable(columns) && fails(self.equal, self.bound(columns))
    }
}

/// Whether `0 <= bound`, or `0 = bound`, is false.
fn fails(equal: bool, bound: i128) -> bool
    ensures { result ≡ specs.fails equal bound }
{
    if equal { is_nonzero(bound) } else { bound < 0 }
}
