ghost use Rattle.std.specs.Prelude.{◌≡◌, pos, ◌*ℤ◌, ◌<◌, ◌^◌, length, slice_index_or, Some, IfOk, IfErr};
ghost use Rattle.lin_rows.specs.Sum.{sum_with_product, sum_overflow, sum_in_order};

use crate::exact::{product_if_fits, sum_if_fits};

/// The sum with the product at a place added, where both fit.
fn add_product(coefficients: &[i128], x: &[i128], place: usize, sum: i128) -> Option<i128>
    requires lengths { length coefficients.now ≡ length x.now }
    requires within { place < length coefficients.now }
    ensures { result ≡ sum_with_product sum (slice_index_or coefficients.now place (pos 0) *ℤ slice_index_or x.now place (pos 0)) }
{
    let product = product_if_fits(coefficients[place], x[place])?;
    sum_if_fits(sum, product)
}

/// The sum of the products of two lists from left to right, or the first place at which a product or the sum up
/// to it does not fit.
pub fn sum_of_products(coefficients: &[i128], x: &[i128]) -> Result<i128, u32>
    requires lengths { length coefficients.now ≡ length x.now }
    requires small { length coefficients.now < 2 ^ 32 }
    ensures sum { IfOk result (λ sum. sum_in_order coefficients.now x.now ≡ Some sum) }
    ensures overflow { IfErr result (λ place. sum_overflow coefficients.now x.now ≡ Some place) }
{
    let mut sum = 0;
    'places: for place in 0..coefficients.len() {
        match add_product(coefficients, x, place, sum) {
            Some(more) => sum = more,
            None => return Err(place as u32),
        }
    }
    Ok(sum)
}
