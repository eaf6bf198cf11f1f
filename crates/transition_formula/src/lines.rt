ghost use Rattle.std.specs.Prelude.{◌≡◌, ◌<◌, ◌+◌, ◌*ℤ◌, ◌++◌, pos, negsuc, length, map, slice_index_or, option_map, IfOk, IfSome};
ghost use Rattle.std.specs.List.{AllByRecursion};
ghost use Rattle.thr_base.specs.Number.{fits};
ghost use Rattle.lin_rows.specs.Exact.{fitting};
ghost use Rattle.lin_rows.specs.Row.{multiple_of, sum_of};
ghost use Rattle.lin_rows.specs.Sum.{sum_with_product, sum_in_order};
ghost use Rattle.transition_formula.specs.Forms.{fitting_sum, column_form, fitting_composition, constant_form, fitting_difference, fitting_form, fitting_multiple, fitting_product, is_constant, value_if_fits, with_multiple, with_multiples};
ghost use Rattle.transition_formula.specs.Stored.{form_of};
ghost use Rattle.transition_formula.specs.inside.FormParts.{fitting_list, form_of_both};

use crate::blocks::{push_unit, push_zeros};
use crate::graph::Line;
use lin_rows::{difference_if_fits, product_if_fits, sum_if_fits};
use std::alloc::{AllocError, Global};

/// The sum of the numbers at a place, where it fits.
fn sum_of_both(one: &[i128], other: &[i128], place: usize) -> Option<i128>
    requires lengths { length one.now ≡ length other.now }
    requires within { place < length one.now }
    ensures { result ≡ fitting (slice_index_or (sum_of one.now other.now) place (pos 0)) }
{
    sum_if_fits(one[place], other[place])
}

/// The sums of two lists, place by place, where each of them fits.
fn sums_of(alloc: Global, one: &[i128], other: &[i128]) -> Result<Option<Vec<i128>>, AllocError>
    requires { length one.now ≡ length other.now }
    ensures { IfOk result (λ made. option_map (λ sums. sums.items) made ≡ fitting_list (sum_of one.now other.now)) }
{
    let mut sums = Vec::with_capacity(alloc, one.len())?;
    'places: for place in 0..one.len() {
        match sum_of_both(one, other, place) {
            Some(sum) => sums.push(sum)?,
            None => return Ok(None),
        }
    }
    Ok(Some(sums))
}

/// The difference of the numbers at a place, where it fits.
fn difference_of_both(one: &[i128], other: &[i128], place: usize) -> Option<i128>
    requires lengths { length one.now ≡ length other.now }
    requires within { place < length one.now }
    ensures { result ≡ fitting (slice_index_or (sum_of one.now (multiple_of (negsuc 0) other.now)) place (pos 0)) }
{
    difference_if_fits(one[place], other[place])
}

/// The differences of two lists, place by place, where each of them fits.
fn differences_of(
    alloc: Global,
    one: &[i128],
    other: &[i128],
) -> Result<Option<Vec<i128>>, AllocError>
    requires { length one.now ≡ length other.now }
    ensures { IfOk result (λ made. option_map (λ differences. differences.items) made ≡ fitting_list (sum_of one.now (multiple_of (negsuc 0) other.now))) }
{
    let mut differences = Vec::with_capacity(alloc, one.len())?;
    'places: for place in 0..one.len() {
        match difference_of_both(one, other, place) {
            Some(difference) => differences.push(difference)?,
            None => return Ok(None),
        }
    }
    Ok(Some(differences))
}

/// The number at a place of a state with inputs behind it.
fn number_at(state: &[i128], inputs: &[i128], place: usize) -> i128
    requires { place < length state.now + length inputs.now }
    ensures { result ≡ slice_index_or (state.now ++ inputs.now) place (pos 0) }
{
    if place < state.len() {
        state[place]
    } else {
        inputs[place - state.len()]
    }
}

/// The sum with the product at a place, where both fit.
fn plus_product(
    coefficients: &[i128],
    state: &[i128],
    inputs: &[i128],
    place: usize,
    sum: i128,
) -> Option<i128>
    requires lengths { length coefficients.now ≡ length state.now + length inputs.now }
    requires within { place < length coefficients.now }
    ensures { result ≡ sum_with_product sum (slice_index_or coefficients.now place (pos 0) *ℤ slice_index_or (state.now ++ inputs.now) place (pos 0)) }
{
    let product = product_if_fits(coefficients[place], number_at(state, inputs, place))?;
    sum_if_fits(sum, product)
}

/// The sum of coefficients times the values of a state and inputs, from left to right. It is given where each product
/// and each sum fits.
pub fn sum_at(coefficients: &[i128], state: &[i128], inputs: &[i128]) -> Option<i128>
    requires { length coefficients.now ≡ length state.now + length inputs.now }
    ensures { result ≡ sum_in_order coefficients.now (state.now ++ inputs.now) }
{
    let mut sum = 0;
    'places: for place in 0..coefficients.len() {
        match plus_product(coefficients, state, inputs, place, sum) {
            Some(more) => sum = more,
            None => return None,
        }
    }
    Some(sum)
}

/// A number times the one at a place, where it fits.
fn product_at(k: i128, numbers: &[i128], place: usize) -> Option<i128>
    requires { place < length numbers.now }
    ensures { result ≡ fitting (slice_index_or (multiple_of k numbers.now) place (pos 0)) }
{
    product_if_fits(k, numbers[place])
}

/// A number times each number of a list, where each product fits.
fn products_of(alloc: Global, k: i128, numbers: &[i128]) -> Result<Option<Vec<i128>>, AllocError>
    ensures { IfOk result (λ made. option_map (λ products. products.items) made ≡ fitting_list (multiple_of k numbers.now)) }
{
    let mut products = Vec::with_capacity(alloc, numbers.len())?;
    'places: for place in 0..numbers.len() {
        match product_at(k, numbers, place) {
            Some(product) => products.push(product)?,
            None => return Ok(None),
        }
    }
    Ok(Some(products))
}

/// The line of both, where both are there.
fn line_of(coefficients: Option<Vec<i128>>, constant: Option<i128>) -> Option<Line>
    ensures { option_map form_of result ≡ form_of_both (option_map (λ numbers. numbers.items) coefficients) constant }
{
    match (coefficients, constant) {
        (Some(coefficients), Some(constant)) => Some(Line {
            coefficients,
            constant,
        }),
        _ => None,
    }
}

/// Whether the number fits.
fn fits(number: i128) -> bool
    ensures { result ≡ fits number }
{
    number != i128::MIN
}

impl Line {
    /// The line that has one value everywhere.
    pub fn constant(alloc: Global, width: u32, value: i128) -> Result<Line, AllocError>
        ensures { IfOk result (λ line. form_of line ≡ constant_form width value) }
    {
        let mut coefficients = Vec::with_capacity(alloc, width as usize)?;
        push_zeros(&mut coefficients, width)?;
        Ok(Line {
            coefficients,
            constant: value,
        })
    }

    /// The line that has one value everywhere, where that fits.
    pub fn constant_if_fits(
        alloc: Global,
        width: u32,
        value: i128,
    ) -> Result<Option<Line>, AllocError>
        ensures { IfOk result (λ made. option_map form_of made ≡ fitting_form (constant_form width value)) }
    {
        if fits(value) {
            let line = Line::constant(alloc, width, value)?;
            Ok(Some(line))
        } else {
            Ok(None)
        }
    }

    /// The line whose value is that of a column.
    pub fn column(alloc: Global, width: u32, column: u32) -> Result<Line, AllocError>
        requires { column < width }
        ensures { IfOk result (λ line. form_of line ≡ column_form width column) }
    {
        let mut coefficients = Vec::with_capacity(alloc, width as usize)?;
        push_unit(&mut coefficients, width, column, 1)?;
        Ok(Line {
            coefficients,
            constant: 0,
        })
    }

    /// The sum, where each of its numbers fits.
    pub fn plus(&self, alloc: Global, other: &Line) -> Result<Option<Line>, AllocError>
        requires { length (form_of self.now).coefficients ≡ length (form_of other.now).coefficients }
        ensures { IfOk result (λ made. option_map form_of made ≡ fitting_sum (form_of self.now) (form_of other.now)) }
    {
        let coefficients = sums_of(
            alloc,
            self.coefficients.as_slice(),
            other.coefficients.as_slice(),
        )?;
        Ok(line_of(coefficients, sum_if_fits(self.constant, other.constant)))
    }

    /// The difference, where each of its numbers fits.
    pub fn minus(&self, alloc: Global, other: &Line) -> Result<Option<Line>, AllocError>
        requires { length (form_of self.now).coefficients ≡ length (form_of other.now).coefficients }
        ensures { IfOk result (λ made. option_map form_of made ≡ fitting_difference (form_of self.now) (form_of other.now)) }
    {
        let coefficients = differences_of(
            alloc,
            self.coefficients.as_slice(),
            other.coefficients.as_slice(),
        )?;
        Ok(line_of(
            coefficients,
            difference_if_fits(self.constant, other.constant),
        ))
    }

    /// The line times a number, where each number of it fits.
    pub fn times(&self, alloc: Global, k: i128) -> Result<Option<Line>, AllocError>
        ensures { IfOk result (λ made. option_map form_of made ≡ fitting_multiple k (form_of self.now)) }
    {
        let coefficients = products_of(alloc, k, self.coefficients.as_slice())?;
        Ok(line_of(coefficients, product_if_fits(k, self.constant)))
    }

    /// Whether the line has one value everywhere.
    fn is_constant(&self) -> bool
        ensures { result ≡ is_constant (form_of self.now) }
    {
        self.coefficients.iter().all(|number| 0 == *number)
    }

    /// The product of two lines of which one is constant, where each of its numbers fits.
    pub fn product(&self, alloc: Global, other: &Line) -> Result<Option<Line>, AllocError>
        ensures { IfOk result (λ made. option_map form_of made ≡ fitting_product (form_of self.now) (form_of other.now)) }
    {
        if self.is_constant() {
            other.times(alloc, self.constant)
        } else if other.is_constant() {
            self.times(alloc, other.constant)
        } else {
            Ok(None)
        }
    }

    /// The line with its columns replaced by lines of one width: the multiples are summed in column order, and the
    /// line's own constant comes last. It is given where each product and each sum fits.
    pub fn compose(
        &self,
        alloc: Global,
        width: u32,
        lines: &[Line],
    ) -> Result<Option<Line>, AllocError>
        requires one_each { length lines.now ≡ length (form_of self.now).coefficients }
        requires widths { AllByRecursion (λ form. length form.coefficients ≡ width) (map form_of lines.now) }
        ensures { IfOk result (λ made. option_map form_of made ≡ fitting_composition width (form_of self.now) (map form_of lines.now)) }
    {
        let multiples = multiples_of(alloc, width, self.coefficients.as_slice(), lines)?;
        match multiples {
            Some(sum) => sum.plus(alloc, &Line::constant(alloc, width, self.constant)?),
            None => Ok(None),
        }
    }

    /// The line's value at a state and inputs. It is given where each product and each sum fits, in order, the constant last.
    pub fn value_at(&self, state: &[i128], inputs: &[i128]) -> Option<i128>
        requires { length (form_of self.now).coefficients ≡ length state.now + length inputs.now }
        ensures { result ≡ value_if_fits (form_of self.now) (state.now ++ inputs.now) }
    {
        let sum = sum_at(self.coefficients.as_slice(), state, inputs)?;
        sum_if_fits(sum, self.constant)
    }
}

/// The sum with the multiple of the line at a place, where both fit.
fn plus_multiple(
    alloc: Global,
    sum: &Line,
    numbers: &[i128],
    lines: &[Line],
    place: usize,
) -> Result<Option<Line>, AllocError>
    requires one_each { length lines.now ≡ length numbers.now }
    requires within { place < length numbers.now }
    requires widths { AllByRecursion (λ form. length form.coefficients ≡ length (form_of sum.now).coefficients) (map form_of lines.now) }
    ensures { IfOk result (λ made. option_map form_of made ≡ with_multiple (form_of sum.now) (slice_index_or numbers.now place (pos 0)) (slice_index_or (map form_of lines.now) place (constant_form 0 (pos 0)))) }
{
    let product = lines[place].times(alloc, numbers[place])?;
    match product {
        Some(product) => sum.plus(alloc, &product),
        None => Ok(None),
    }
}

/// The sum of the multiples of lines, in order, where each product and each sum fits.
fn multiples_of(
    alloc: Global,
    width: u32,
    numbers: &[i128],
    lines: &[Line],
) -> Result<Option<Line>, AllocError>
    requires one_each { length lines.now ≡ length numbers.now }
    requires widths { AllByRecursion (λ form. length form.coefficients ≡ width) (map form_of lines.now) }
    ensures sum { IfOk result (λ made. option_map form_of made ≡ with_multiples (constant_form width (pos 0)) numbers.now (map form_of lines.now)) }
    ensures width { IfOk result (λ made. IfSome made (λ sum. length (form_of sum).coefficients ≡ width)) }
{
    let mut sum = Line::constant(alloc, width, 0)?;
    'places: for place in 0..numbers.len() {
        let more = plus_multiple(alloc, &sum, numbers, lines, place)?;
        match more {
            Some(more) => sum = more,
            None => return Ok(None),
        }
    }
    Ok(Some(sum))
}
