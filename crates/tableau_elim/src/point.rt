ghost use Rattle.std.specs.Prelude.{◌≡◌, ◌<◌, ◌^◌, ℤ, pos, ◌<ℤ◌, map, find, length, IfOk, IfSome};
ghost use Rattle.std.specs.List.{AllByRecursion, range_with_len};
ghost use Rattle.std.specs.Option.{option_map};
ghost use Rattle.std.specs.Global.{Vec};
ghost use Rattle.thr_base.specs.Number.{Fits};
ghost use Rattle.lin_rows.specs.Exact.{fitting};
ghost use Rattle.farkas_cert.specs.BackSubstitution.{fraction};
ghost use Rattle.farkas_cert.specs.Elimination.{every};
ghost use Rattle.tableau_elim.specs.Tableau as tableau_specs;
ghost use Rattle.tableau_elim.specs.Rounds as specs;
ghost use Rattle.tableau_elim.specs.Decision.{outcome_in};
ghost use Rattle.tableau_elim.specs.inside.Held.{tableau_of, fraction_in, IsValue};
ghost use Rattle.tableau_elim.specs.inside.Lines.{line_at};
ghost use Rattle.tableau_elim.specs.inside.Combined.{numerator_over};

use crate::looking::sum_of_line;
use crate::tableau::Tableau;
use crate::tried::Tried;
use crate::variable::Variable;
use farkas_cert::common_divisor;
use lin_rows::{NumberList, floor_of, multiple_if_fits, product_if_fits};
use std::alloc::{AllocError, Global};

/// A reduced fraction with a positive denominator.
#[derive(Clone, Copy, Debug)]
pub struct Value {
    pub numerator: i128,
    pub denominator: i128,
}

/// `sum / divisor`, reduced.
fn reduced_value(sum: i128, divisor: i128) -> Value
    requires sum { Fits sum }
    requires fits { Fits divisor }
    requires positive { pos 0 <ℤ divisor }
    ensures value { fraction_in result ≡ fraction sum divisor }
    ensures known { IsValue result }
{
    let common = common_divisor(sum, divisor);
    Value {
        numerator: floor_of(sum, common),
        denominator: floor_of(divisor, common),
    }
}

/// The line whose basic is a column.
fn line_of_column(tableau: &Tableau, column: u32) -> Option<usize>
    ensures line { option_map (λ k. line_at k (tableau_of tableau.now)) result ≡ find (λ line. tableau_specs.are_same line.basic (Variable.Column column)) (tableau_of tableau.now).lines }
    ensures within { IfSome result (λ k. k < length tableau.now.basics.items) }
{
    let basic = Variable::Column(column);
    'lines: for line in 0..tableau.basics.len() {
        if tableau.basic_of(line).is_same(&basic) {
            return Some(line);
        }
    }
    None
}

/// The value of a column: 0 at a place.
#[tactic(auto, unfolding(crate::specs::Rounds::column_value))]
fn column_value(tableau: &Tableau, values: &[i128], column: u32) -> Option<Value>
    requires { values.now ≡ map tableau_specs.value_at_place tableau.now.places.items }
    ensures value { option_map fraction_in result ≡ specs.column_value (tableau_of tableau.now) column }
    ensures known { IfSome result IsValue }
{
    let Some(line) = line_of_column(tableau, column) else {
        return Some(Value {
            numerator: 0,
            denominator: 1,
        });
    };
    let sum = sum_of_line(tableau, values, line)?;
    Some(reduced_value(sum, tableau.divisor_of(line)))
}

/// The values of all columns.
fn column_values(
    alloc: Global,
    tableau: &Tableau,
    values: &[i128],
    columns: u32,
) -> Result<Option<Vec<Value>>, AllocError>
    requires { values.now ≡ map tableau_specs.value_at_place tableau.now.places.items }
    ensures values { IfOk result (λ made. option_map (λ (v : Vec Value). map fraction_in v.items) made ≡ every (map (specs.column_value (tableau_of tableau.now)) (range_with_len 0 columns))) }
    ensures known { IfOk result (λ made. IfSome made (λ v. AllByRecursion IsValue v.items)) }
{
    let mut all = Vec::with_capacity(alloc, columns as usize)?;
    'columns: for column in 0..columns {
        match column_value(tableau, values, column) {
            Some(value) => all.push(value)?,
            None => return Ok(None),
        }
    }
    Ok(Some(all))
}

/// The least common multiple of the denominators, where it fits.
#[tactic(auto, unfolding(crate::specs::Rounds::common_denominator))]
fn common_denominator(values: &[Value]) -> Option<i128>
    requires { AllByRecursion IsValue values.now }
    ensures { result ≡ fitting (pos (specs.common_denominator (map fraction_in values.now))) }
{
    let mut denominator = 1;
    'values: for place in 0..values.len() {
        match multiple_if_fits(denominator, values[place].denominator) {
            Some(multiple) => denominator = multiple,
            None => return None,
        }
    }
    Some(denominator)
}

/// The numerator of a value over a common denominator, where it fits.
fn numerator_over(value: Value, denominator: i128) -> Option<i128>
    requires { IsValue value }
    ensures { result ≡ numerator_over denominator (fraction_in value) }
{
    product_if_fits(value.numerator, floor_of(denominator, value.denominator))
}

/// The numerators over a common denominator, where all fit.
fn numerators_over(
    alloc: Global,
    values: &[Value],
    denominator: i128,
) -> Result<Option<Vec<i128>>, AllocError>
    requires { AllByRecursion IsValue values.now }
    ensures { IfOk result (λ made. option_map (λ (v : Vec ℤ). v.items) made ≡ every (map (numerator_over denominator) (map fraction_in values.now))) }
{
    let mut numerators = Vec::with_capacity(alloc, values.len())?;
    'values: for place in 0..values.len() {
        match numerator_over(values[place], denominator) {
            Some(numerator) => numerators.push(numerator)?,
            None => return Ok(None),
        }
    }
    Ok(Some(numerators))
}

/// The point of these values.
#[tactic(auto, unfolding(crate::specs::Rounds::point_over))]
fn point_over(alloc: Global, values: &[Value]) -> Result<Tried, AllocError>
    requires { AllByRecursion IsValue values.now }
    ensures { IfOk result (λ tried. outcome_in tried ≡ specs.point_over (map fraction_in values.now)) }
{
    let Some(denominator) = common_denominator(values) else {
        return Ok(Tried::GaveUp);
    };
    let made = numerators_over(alloc, values, denominator)?;
    match made {
        Some(numerators) => Ok(Tried::Point(NumberList::of(numerators), denominator)),
        None => Ok(Tried::GaveUp),
    }
}

/// The point that a tableau gives of which no line is out.
#[tactic(auto, unfolding(crate::specs::Rounds::point_of))]
pub fn point_of(
    alloc: Global,
    tableau: &Tableau,
    values: &[i128],
    columns: u32,
) -> Result<Tried, AllocError>
    requires { values.now ≡ map tableau_specs.value_at_place tableau.now.places.items }
    ensures { IfOk result (λ tried. outcome_in tried ≡ specs.point_of columns (tableau_of tableau.now)) }
{
    let made = column_values(alloc, tableau, values, columns)?;
    match made {
        Some(values) => point_over(alloc, values.as_slice()),
        None => Ok(Tried::GaveUp),
    }
}
