ghost use Rattle.std.specs.Prelude.{◌≡◌, None, Some, MatchBool, length, neg_ℤ, ◌*ℤ◌};
ghost use Rattle.std.specs.Int.{int_signum};
ghost use Rattle.std.specs.List.{AllByRecursion};
ghost use Rattle.thr_base.specs.Number.{Fits};
ghost use Rattle.lin_rows.specs.Row.{multiple_of};
ghost use Rattle.farkas_cert.specs.Combination.{combined_numbers};

use farkas_cert::combined_number;

/// Multiplies the numbers by `a` and adds `b` times the others, until a product or a sum does not fit. Answers whether all fit.
pub fn combine(numbers: &mut [i128], a: i128, b: i128, others: &[i128]) -> bool
    requires { length numbers.old ≡ length others.now }
    ensures { MatchBool result (combined_numbers a numbers.old b others.now ≡ Some numbers.new) (combined_numbers a numbers.old b others.now ≡ None) }
{
    'places: for place in 0..others.len() {
        match combined_number(a, numbers[place], b, others[place]) {
            Some(number) => numbers[place] = number,
            None => return false,
        }
    }
    true
}

/// The number with the sign that `p` has not, or 0 where `p` is 0.
pub fn with_other_sign(p: i128, number: i128) -> i128
    requires { Fits number }
    ensures product { result ≡ neg_ℤ (int_signum p) *ℤ number }
    ensures fits { Fits result }
{
    if p < 0 {
        number
    } else if p == 0 {
        0
    } else {
        -number
    }
}

/// Each number gets the sign that `p` has not.
pub fn turn(numbers: &mut [i128], p: i128)
    requires { AllByRecursion Fits numbers.old }
    ensures { numbers.new ≡ multiple_of (neg_ℤ (int_signum p)) numbers.old }
{
    for number in numbers.iter_mut() {
        *number = with_other_sign(p, *number);
    }
}
