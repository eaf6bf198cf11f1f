ghost use Rattle.std.specs.Prelude.{◌≡◌, IfOk, pos, get_or};
ghost use Rattle.std.specs.List.{AllByRecursion};
ghost use Rattle.thr_base.specs.Number.{Fits};
ghost use Rattle.farkas_cert.specs.Combination.{combined_number, combined_numbers};
ghost use Rattle.farkas_cert.specs.Divided.{divided_numbers};
ghost use Rattle.farkas_cert.specs.Line as specs;
ghost use Rattle.plain_elim.specs.inside.Combined.{numbers_in};

use crate::line::Line;
use farkas_cert::{combined_number, divide, number_at};
use std::alloc::{AllocError, Global};

/// `a` times the one number plus `b` times the other, where the products and the sum fit.
fn combined_at(a: i128, left: &[i128], b: i128, right: &[i128], place: usize) -> Option<i128>
    ensures { result ≡ combined_number a (get_or left.now place (pos 0)) b (get_or right.now place (pos 0)) }
{
    combined_number(a, number_at(left, place), b, number_at(right, place))
}

/// `a` times the one list plus `b` times the other, where all products and sums fit. The shorter is continued by zeros.
fn combined_numbers(
    alloc: Global,
    a: i128,
    left: &[i128],
    b: i128,
    right: &[i128],
) -> Result<Option<Vec<i128>>, AllocError>
    ensures { IfOk result (λ made. numbers_in made ≡ combined_numbers a left.now b right.now) }
{
    let length = left.len().max(right.len());
    let mut numbers = Vec::with_capacity(alloc, length)?;
    'places: for place in 0..length {
        let number = combined_at(a, left, b, right, place);
        match number {
            Some(number) => numbers.push(number)?,
            None => return Ok(None),
        }
    }
    Ok(Some(numbers))
}

/// The line of numbers without a common divisor.
fn divided_line(equal: bool, mut numbers: Vec<i128>) -> Line
    requires { AllByRecursion Fits numbers.items }
    ensures { result ≡ record { equal = equal; numbers = divided_numbers numbers.items } }
{
    divide(numbers.as_mut_slice());
    Line::of(equal, numbers)
}

/// `a` times the one line plus `b` times the other, without a common divisor, where all products and sums fit.
pub fn made_line(
    alloc: Global,
    equal: bool,
    a: i128,
    left: &Line,
    b: i128,
    right: &Line,
) -> Result<Option<Line>, AllocError>
    ensures { IfOk result (λ made. made ≡ specs.made_line equal a left.now.numbers b right.now.numbers) }
{
    let made = combined_numbers(alloc, a, left.numbers(), b, right.numbers())?;
    match made {
        Some(numbers) => Ok(Some(divided_line(equal, numbers))),
        None => Ok(None),
    }
}
