ghost use Rattle.std.specs.Prelude.{◌≡◌, ◌<◌, ◌≤◌, pos, ◌*ℤ◌, length, take, slice_set, slice_index_or, IfSome};
ghost use Rattle.std.specs.List.{AllByRecursion};
ghost use Rattle.thr_base.specs.Number.{Fits};
ghost use Rattle.lin_rows.specs.Exact.{fitting};
ghost use Rattle.farkas_cert.specs.Line.{coefficient_at};
ghost use Rattle.farkas_cert.specs.BackSubstitution as specs;
ghost use Rattle.plain_elim.specs.inside.Held.{BoundsColumn};
ghost use Rattle.plain_elim.specs.inside.PointParts.{minus_product, narrowed_by};

use crate::fraction::Fraction;
use crate::line::Line;
use crate::rational_point::RationalPoint;
use lin_rows::{product_if_fits, sum_if_fits};
use std::marker::Model;

/// The greatest lower and the least upper bound of a column so far.
#[derive(Clone, Copy, Debug)]
pub struct Bounds {
    lower: Option<Fraction>,
    upper: Option<Fraction>,
}

impl Model for Bounds {
    ghost use Rattle.farkas_cert.specs.BackSubstitution as specs;

    ghost Value = { specs.Bounds };

    ghost view = { λ inside. record { lower = inside.lower; upper = inside.upper } };

    ghost inverse = { λ b. record { lower = b.lower; upper = b.upper } };
}

/// The number at a place, and 0 at the column that is left out.
fn number_beside(numbers: &[i128], columns: usize, column: usize, place: usize) -> i128
    requires within { place < columns }
    requires width { columns ≤ length numbers.now }
    ensures { result ≡ slice_index_or (slice_set (take columns numbers.now) column (pos 0)) place (pos 0) }
{
    if place == column { 0 } else { numbers[place] }
}

/// A number less a product. A product with 0 is not made.
fn minus_product(total: i128, coefficient: i128, number: i128) -> Option<i128>
    requires { Fits total }
    ensures difference { result ≡ minus_product total coefficient number }
    ensures fits { IfSome result Fits }
{
    if coefficient == 0 {
        return Some(total);
    }
    let product = product_if_fits(coefficient, number)?;
    sum_if_fits(total, -product)
}

/// A number less the products of the coefficients with the numerators, but that of one column.
fn minus_products(total: i128, numbers: &[i128], column: u32, numerators: &[i128]) -> Option<i128>
    requires fits { Fits total }
    requires width { length numerators.now ≤ length numbers.now }
    ensures difference { result ≡ specs.minus_products total (slice_set (take (length numerators.now) numbers.now) column (pos 0)) numerators.now }
    ensures fits { IfSome result Fits }
{
    let mut left = total;
    'places: for place in 0..numerators.len() {
        let coefficient = number_beside(numbers, numerators.len(), column as usize, place);
        left = minus_product(left, coefficient, numerators[place])?;
    }
    Some(left)
}

/// A number of a line times a denominator, where it fits.
fn over_denominator(line: &Line, place: u32, denominator: i128) -> Option<i128>
    requires { place < length line.now.numbers }
    ensures product { result ≡ fitting (coefficient_at place line.now *ℤ denominator) }
    ensures fits { IfSome result Fits }
{
    product_if_fits(line.coefficient_at(place), denominator)
}

/// The bound that a line puts on a column, where the other columns have the values of the point.
#[tactic(auto, unfolding(farkas_cert::specs::BackSubstitution::bound_on))]
pub fn bound_on(columns: u32, column: u32, point: &RationalPoint, line: &Line) -> Option<Fraction>
    requires bounds { BoundsColumn columns column line.now }
    requires width { length point.now.numerators ≡ columns }
    ensures { result ≡ specs.bound_on columns column point.now line.now }
{
    let denominator = point.denominator();
    let bound = over_denominator(line, columns, denominator)?;
    let left = minus_products(bound, line.numbers(), column, point.numerators())?;
    let factor = over_denominator(line, column, denominator)?;
    Some(Fraction::of(left, factor))
}

/// The greater of a bound that may be there and another.
fn greater_of(best: Option<Fraction>, other: Fraction) -> Option<Fraction>
    ensures { result ≡ specs.greater_of best other }
{
    let Some(best) = best else {
        return Some(other);
    };
    let less = best.is_below(&other)?;
    Some(if less { other } else { best })
}

/// The lesser of a bound that may be there and another.
fn lesser_of(best: Option<Fraction>, other: Fraction) -> Option<Fraction>
    ensures { result ≡ specs.lesser_of best other }
{
    let Some(best) = best else {
        return Some(other);
    };
    let less = other.is_below(&best)?;
    Some(if less { other } else { best })
}

impl Bounds {
    /// With one more upper or lower bound.
    fn narrowed_bounds(self, is_upper: bool, bound: Fraction) -> Option<Bounds>
        ensures { result ≡ specs.narrowed_bounds is_upper self bound }
    {
        if is_upper {
            let upper = Some(lesser_of(self.upper, bound)?);
            Some(Bounds {
                lower: self.lower,
                upper,
            })
        } else {
            let lower = Some(greater_of(self.lower, bound)?);
            Some(Bounds {
                lower,
                upper: self.upper,
            })
        }
    }

    /// With the bound of one more line.
    fn with_line(
        self,
        columns: u32,
        column: u32,
        point: &RationalPoint,
        line: &Line,
    ) -> Option<Bounds>
        requires bounds { BoundsColumn columns column line.now }
        requires width { length point.now.numerators ≡ columns }
        ensures { result ≡ narrowed_by columns column point.now line.now self }
    {
        let bound = bound_on(columns, column, point, line)?;
        self.narrowed_bounds(line.is_positive_at(column), bound)
    }

    /// The bounds that lines put on a column.
    pub fn of(columns: u32, column: u32, point: &RationalPoint, lines: &[Line]) -> Option<Bounds>
        requires bounds { AllByRecursion (BoundsColumn columns column) lines.now }
        requires width { length point.now.numerators ≡ columns }
        ensures { result ≡ specs.bounds_from columns column point.now (record { lower = None; upper = None }) lines.now }
    {
        let mut bounds = Bounds {
            lower: None,
            upper: None,
        };
        'lines: for line in lines {
            bounds = bounds.with_line(columns, column, point, line)?;
        }
        Some(bounds)
    }

    /// A value between the bounds, a whole one where there is one.
    pub fn chosen_value(&self) -> Fraction
        ensures { result ≡ specs.chosen_value self.now.lower self.now.upper }
    {
        match (self.lower, self.upper) {
            (Some(low), Some(high)) if low.ceiling() > high.floor() => low,
            (Some(low), _) => Fraction::whole(low.ceiling()),
            (None, Some(high)) => Fraction::whole(high.floor()),
            (None, None) => Fraction::whole(0),
        }
    }
}
