ghost use Rattle.std.specs.Prelude.{◌≡◌, pos, ◌<ℤ◌, ◌≢◌};
ghost use Rattle.thr_base.specs.Number.{Fits};
ghost use Rattle.farkas_cert.specs.BackSubstitution as specs;

use farkas_cert::common_divisor;
use lin_rows::{floor_of, product_if_fits};
use std::marker::Model;

/// A reduced fraction with a positive denominator. Both of its numbers fit.
#[derive(Clone, Copy, Debug)]
pub struct Fraction {
    numerator: i128,
    denominator: i128,
}

impl Model for Fraction {
    ghost use Rattle.farkas_cert.specs.BackSubstitution as specs;
    ghost use Rattle.plain_elim.specs.inside.PointParts.{IsFraction};

    ghost Value = { specs.Fraction };

    ghost view = { λ inside. record { numerator = inside.numerator; denominator = inside.denominator } };

    ghost inverse = { λ f. record { numerator = f.numerator; denominator = f.denominator } };

    ghost invariant = { λ inside. IsFraction inside.numerator inside.denominator };
}

impl Fraction {
    pub fn whole(number: i128) -> Fraction
        requires { Fits number }
        ensures { result ≡ specs.whole number }
    {
        Fraction {
            numerator: number,
            denominator: 1,
        }
    }

    pub fn numerator(&self) -> i128
        ensures number { result ≡ self.now.numerator }
        ensures fits { Fits result }
    {
        self.numerator
    }

    pub fn denominator(&self) -> i128
        ensures number { result ≡ self.now.denominator }
        ensures fits { Fits result }
        ensures positive { pos 0 <ℤ result }
    {
        self.denominator
    }

    /// The greatest whole number that is not above it.
    pub fn floor(&self) -> i128
        ensures number { result ≡ specs.floor_of self.now }
        ensures fits { Fits result }
    {
        floor_of(self.numerator, self.denominator)
    }

    /// The least whole number that is not below it.
    pub fn ceiling(&self) -> i128
        ensures number { result ≡ specs.ceiling_of self.now }
        ensures fits { Fits result }
    {
        -floor_of(-self.numerator, self.denominator)
    }

    /// Whether it is below another, where both cross products fit.
    pub fn is_below(&self, other: &Fraction) -> Option<bool>
        ensures { result ≡ specs.is_below self.now other.now }
    {
        let left = product_if_fits(self.numerator, other.denominator)?;
        let right = product_if_fits(other.numerator, self.denominator)?;
        Some(left < right)
    }

    /// `numerator / denominator`, reduced, where the denominator is positive.
    fn in_lowest_terms(numerator: i128, denominator: i128) -> Fraction
        requires numerator { Fits numerator }
        requires denominator { Fits denominator }
        requires positive { pos 0 <ℤ denominator }
        ensures { result ≡ specs.fraction numerator denominator }
    {
        let divisor = common_divisor(numerator, denominator);
        Fraction {
            numerator: floor_of(numerator, divisor),
            denominator: floor_of(denominator, divisor),
        }
    }

    /// `numerator / denominator`, reduced and with a positive denominator.
    pub fn of(numerator: i128, denominator: i128) -> Fraction
        requires numerator { Fits numerator }
        requires denominator { Fits denominator }
        requires some { denominator ≢ pos 0 }
        ensures { result ≡ specs.fraction numerator denominator }
    {
        if denominator < 0 {
            Fraction::in_lowest_terms(-numerator, -denominator)
        } else {
            Fraction::in_lowest_terms(numerator, denominator)
        }
    }
}
