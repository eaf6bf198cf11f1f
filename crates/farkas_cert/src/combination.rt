ghost use Rattle.std.specs.Prelude.{◌≡◌, pos, ◌*ℤ◌, ◌<ℤ◌, map};
ghost use Rattle.std.specs.Int.{int_div_euclid};
ghost use Rattle.std.specs.List.{AllByRecursion};
ghost use Rattle.thr_base.specs.Number.{Fits};
ghost use Rattle.lin_rows.specs.Exact.{fitting};
ghost use Rattle.farkas_cert.specs.Combination.{combined_number};
ghost use Rattle.farkas_cert.specs.Divided.{divided_numbers};

use lin_rows::{divisor_of, floor_of, product_if_fits, sum_if_fits};

/// The product, where it fits. The numbers of lines are mostly 0, so that is looked at first.
fn product(a: i128, number: i128) -> Option<i128>
    ensures { result ≡ fitting (a *ℤ number) }
{
    if number == 0 {
        Some(0)
    } else {
        product_if_fits(a, number)
    }
}

/// `a` times the one number plus `b` times the other, where the products and the sum fit.
pub fn combined_number(a: i128, left: i128, b: i128, right: i128) -> Option<i128>
    ensures { result ≡ combined_number a left b right }
{
    let first = product(a, left)?;
    let second = product(b, right)?;
    sum_if_fits(first, second)
}

/// Each number is replaced by its quotient, rounded down.
fn divide_by(numbers: &mut [i128], divisor: i128)
    requires positive { pos 0 <ℤ divisor }
    requires fit { AllByRecursion Fits numbers.old }
    ensures { numbers.new ≡ map (λ number. int_div_euclid number divisor) numbers.old }
{
    for number in numbers.iter_mut() {
        *number = floor_of(*number, divisor);
    }
}

/// Each number is divided by the greatest common divisor of all.
pub fn divide(numbers: &mut [i128])
    requires { AllByRecursion Fits numbers.old }
    ensures { numbers.new ≡ divided_numbers numbers.old }
{
    let divisor = divisor_of(numbers);
    if 1 < divisor {
        divide_by(numbers, divisor);
    }
}
