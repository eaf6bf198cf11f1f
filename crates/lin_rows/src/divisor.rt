ghost use Rattle.std.specs.Prelude.{◌≡◌, pos, ◌<ℤ◌, unsigned_abs};
ghost use Rattle.std.specs.Int.{int_div_euclid};
ghost use Rattle.std.specs.List.{AllByRecursion};
ghost use Rattle.thr_base.specs.Number.{Fits};
ghost use Rattle.lin_rows.specs.Exact.{fitting};
ghost use Rattle.lin_rows.specs.Gcd.{gcd, gcd_of, lcm};

use crate::exact::product_if_fits;

/// Euclid's algorithm.
fn common_divisor(a: u128, b: u128) -> u128
    ensures { result ≡ gcd a b }
{
    let mut greater = a;
    let mut lesser = b;
    'steps: while lesser != 0 {
        let rest = greater % lesser;
        greater = lesser;
        lesser = rest;
    }
    greater
}

/// The greatest common divisor of all numbers; 0 where all are 0.
fn size_of_divisor(numbers: &[i128]) -> u128
    ensures { result ≡ gcd_of numbers.now }
{
    let mut divisor = 0;
    'numbers: for number in numbers {
        if divisor == 1 {
            return 1;
        }
        divisor = common_divisor(number.unsigned_abs(), divisor);
    }
    divisor
}

/// The greatest common divisor as a number that fits, as it does where all numbers do.
pub fn divisor_of(numbers: &[i128]) -> i128
    requires { AllByRecursion Fits numbers.now }
    ensures { result ≡ pos (gcd_of numbers.now) }
{
    size_of_divisor(numbers) as i128
}

/// The quotient, rounded down.
pub fn floor_of(number: i128, divisor: i128) -> i128
    requires { pos 0 <ℤ divisor }
    ensures { result ≡ int_div_euclid number divisor }
{
    number.div_euclid(divisor)
}

/// The least common multiple of two positive numbers, where it fits.
pub fn multiple_if_fits(a: i128, b: i128) -> Option<i128>
    requires first { pos 0 <ℤ a }
    requires second { pos 0 <ℤ b }
    ensures { result ≡ fitting (pos (lcm (unsigned_abs a) (unsigned_abs b))) }
{
    let divisor = divisor_of(&[b, a]);
    product_if_fits(floor_of(a, divisor), b)
}
