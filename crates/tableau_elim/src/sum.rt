ghost use Rattle.std.specs.Prelude.{◌≡◌, pos, ◌*ℤ◌, length};
ghost use Rattle.thr_base.specs.Number.{Fits};
ghost use Rattle.lin_rows.specs.Sum.{sum_with_product, sum_in_order};

use lin_rows::{product_if_fits, sum_if_fits};

/// The sum with one more product, where both fit. The lines are mostly 0, so that is looked at first.
fn with_product(sum: i128, number: i128, value: i128) -> Option<i128>
    requires { Fits sum }
    ensures { result ≡ sum_with_product sum (number *ℤ value) }
{
    if number == 0 {
        Some(sum)
    } else {
        let product = product_if_fits(number, value)?;
        sum_if_fits(sum, product)
    }
}

/// The sum of the products from left to right, where each product and the sum up to it fits.
pub fn sum_of_products(numbers: &[i128], values: &[i128]) -> Option<i128>
    requires { length numbers.now ≡ length values.now }
    ensures { result ≡ sum_in_order numbers.now values.now }
{
    let mut sum = 0;
    'places: for place in 0..numbers.len() {
        match with_product(sum, numbers[place], values[place]) {
            Some(more) => sum = more,
            None => return None,
        }
    }
    Some(sum)
}
