ghost use Rattle.std.specs.Prelude.{◌≡◌, pos, ◌<ℤ◌, get_or, unsigned_abs};
ghost use Rattle.thr_base.specs.Number.{Fits};
ghost use Rattle.lin_rows.specs.Gcd.{gcd};
ghost use Rattle.farkas_cert.specs.Line as specs;

use lin_rows::divisor_of;

pub fn is_nonzero(number: i128) -> bool
    ensures { result ≡ specs.is_nonzero number }
{
    number != 0
}

/// The number at a place, or 0 past the end.
pub fn number_at(numbers: &[i128], place: usize) -> i128
    ensures { result ≡ get_or numbers.now place (pos 0) }
{
    numbers.get(place).copied().unwrap_or(0)
}

/// The greatest common divisor of a number and a positive one.
pub fn common_divisor(number: i128, positive: i128) -> i128
    requires number { Fits number }
    requires fits { Fits positive }
    requires positive { pos 0 <ℤ positive }
    ensures divisor { result ≡ pos (gcd (unsigned_abs number) (unsigned_abs positive)) }
    ensures positive { pos 0 <ℤ result }
{
    divisor_of(&[positive, number])
}
