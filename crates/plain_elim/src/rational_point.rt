ghost use Rattle.std.specs.Prelude.{◌≡◌, ◌<◌, pos, ◌<ℤ◌, length, replicate, slice_set, IfOk, IfSome};
ghost use Rattle.std.specs.Bool.{OnTrue};
ghost use Rattle.std.specs.List.{AllByRecursion};
ghost use Rattle.thr_base.specs.Number.{Fits};
ghost use Rattle.lin_rows.specs.Row.{multiple_of};
ghost use Rattle.farkas_cert.specs.Line.{all_fit};
ghost use Rattle.farkas_cert.specs.BackSubstitution as specs;

use crate::fraction::Fraction;
use farkas_cert::common_divisor;
use lin_rows::{floor_of, product_if_fits};
use std::alloc::{AllocError, Global};
use std::marker::Model;

/// A numerator for each column, over one positive denominator. All of them fit.
#[derive(Debug, Drop)]
pub struct RationalPoint {
    numerators: Vec<i128>,
    denominator: i128,
}

impl Model for RationalPoint {
    ghost use Rattle.farkas_cert.specs.BackSubstitution as specs;
    ghost use Rattle.plain_elim.specs.inside.PointParts.{IsPoint};

    ghost Value = { specs.RationalPoint };

    ghost view = { λ inside. record { numerators = inside.numerators.items; denominator = inside.denominator } };

    ghost invariant = { λ inside. IsPoint inside.numerators.items inside.denominator };
}

/// Multiplies all numbers, until a product does not fit. Answers whether all fit.
fn scale_all(numbers: &mut [i128], scale: i128) -> bool
    ensures fit { result ≡ all_fit (multiple_of scale numbers.old) }
    ensures products { OnTrue result (numbers.new ≡ multiple_of scale numbers.old) }
{
    'numbers: for number in numbers.iter_mut() {
        match product_if_fits(scale, *number) {
            Some(product) => *number = product,
            None => return false,
        }
    }
    true
}

/// Sets a column to a number, and multiplies all others, until a product does not fit. Answers whether all fit.
fn set_over(numbers: &mut [i128], column: u32, number: i128, scale: i128) -> bool
    requires within { column < length numbers.old }
    requires fits { Fits number }
    ensures fit { result ≡ all_fit (slice_set (multiple_of scale numbers.old) column number) }
    ensures numbers { OnTrue result (numbers.new ≡ slice_set (multiple_of scale numbers.old) column number) }
{
    numbers[column as usize] = 0;
    let fit = scale_all(numbers, scale);
    numbers[column as usize] = number;
    fit
}

impl RationalPoint {
    pub fn zero(alloc: Global, columns: u32) -> Result<RationalPoint, AllocError>
        ensures { IfOk result (λ point. point ≡ record { numerators = replicate columns (pos 0); denominator = pos 1 }) }
    {
        Ok(RationalPoint {
            numerators: vec![in alloc; 0; columns as usize]?,
            denominator: 1,
        })
    }

    pub fn numerators(&self) -> &[i128]
        ensures numbers { result.now ≡ self.now.numerators }
        ensures fit { AllByRecursion Fits self.now.numerators }
    {
        self.numerators.as_slice()
    }

    pub fn denominator(&self) -> i128
        ensures number { result ≡ self.now.denominator }
        ensures fits { Fits result }
        ensures positive { pos 0 <ℤ result }
    {
        self.denominator
    }

    pub fn into_numerators(self) -> Vec<i128>
        ensures { result.items ≡ self.numerators }
    {
        self.numerators
    }

    /// Sets a column to `value * share` where all other numbers are multiplied by `scale`.
    fn assigned_point_by(
        self,
        column: u32,
        value: i128,
        share: i128,
        scale: i128,
    ) -> Option<RationalPoint>
        requires within { column < length self.numerators }
        requires positive { pos 0 <ℤ scale }
        ensures point { result ≡ specs.assigned_point_by column self value share scale }
        ensures width { IfSome result (λ next. length next.numerators ≡ length self.numerators) }
    {
        let number = product_if_fits(value, share)?;
        let denominator = product_if_fits(self.denominator, scale)?;
        let mut numerators = self.numerators;
        if !set_over(&mut numerators, column, number, scale) {
            return None;
        }
        Some(RationalPoint {
            numerators,
            denominator,
        })
    }

    /// Sets a column to a value, over the least denominator that both have in common.
    pub fn assigned_point(self, column: u32, value: Fraction) -> Option<RationalPoint>
        requires { column < length self.numerators }
        ensures point { result ≡ specs.assigned_point column self value }
        ensures width { IfSome result (λ next. length next.numerators ≡ length self.numerators) }
    {
        let divisor = common_divisor(self.denominator(), value.denominator());
        let share = floor_of(self.denominator(), divisor);
        let scale = floor_of(value.denominator(), divisor);
        self.assigned_point_by(column, value.numerator(), share, scale)
    }
}
