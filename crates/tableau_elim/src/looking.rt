ghost use Rattle.std.specs.Prelude.{◌≡◌, ◌≢◌, ◌<◌, ◌*ℤ◌, pos, not, map, length, IfOk, IfSome};
ghost use Rattle.std.specs.Option.{option_map};
ghost use Rattle.lin_rows.specs.Exact.{fitting};
ghost use Rattle.tableau_elim.specs.Tableau as tableau_specs;
ghost use Rattle.tableau_elim.specs.Rounds as specs;
ghost use Rattle.tableau_elim.specs.inside.Held.{tableau_of};
ghost use Rattle.tableau_elim.specs.inside.Lines.{line_at};
ghost use Rattle.tableau_elim.specs.inside.Steps.{comes_first, earlier_out};

use crate::standing::{Side, Standing};
use crate::sum::sum_of_products;
use crate::tableau::Tableau;
use crate::variable::{Slack, Variable};
use lin_rows::product_if_fits;
use std::alloc::{AllocError, Global};

/// The values of the variables at the places.
pub fn values_at_places(alloc: Global, places: &[Variable]) -> Result<Vec<i128>, AllocError>
    ensures { IfOk result (λ values. values.items ≡ map tableau_specs.value_at_place places.now) }
{
    places
        .iter()
        .map(|variable| variable.value_at_place())
        .collect(alloc)
}

/// The sum of a line's numbers times the values, where all products and sums fit.
#[tactic(auto, unfolding(crate::specs::Tableau::sum_of_line))]
pub fn sum_of_line(tableau: &Tableau, values: &[i128], line: usize) -> Option<i128>
    requires values { values.now ≡ map tableau_specs.value_at_place tableau.now.places.items }
    requires within { line < length tableau.now.basics.items }
    ensures { result ≡ tableau_specs.sum_of_line tableau.now.places.items (line_at line (tableau_of tableau.now)) }
{
    sum_of_products(&tableau.numbers_of(line)[1..], values)
}

/// How a sum stands to its limit.
fn standing_by_limit(equal: bool, sum: i128, limit: i128) -> Standing
    ensures { result ≡ specs.standing_to_limit equal sum limit }
{
    if limit < sum {
        Standing::Out(Side::High)
    } else if equal && sum < limit {
        Standing::Out(Side::Low)
    } else {
        Standing::Within
    }
}

/// How a slack stands to its bound, by its line.
fn standing_of_slack(tableau: &Tableau, values: &[i128], line: usize, slack: Slack) -> Standing
    requires values { values.now ≡ map tableau_specs.value_at_place tableau.now.places.items }
    requires within { line < length tableau.now.basics.items }
    ensures { let at = line_at line (tableau_of tableau.now) in result ≡ specs.standing_by slack.equal (tableau_specs.sum_of_line tableau.now.places.items at) (fitting (slack.bound *ℤ tableau_specs.divisor_of at)) }
{
    let Some(sum) = sum_of_line(tableau, values, line) else {
        return Standing::Unfit;
    };
    let Some(limit) = product_if_fits(slack.bound, tableau.divisor_of(line)) else {
        return Standing::Unfit;
    };
    standing_by_limit(slack.equal, sum, limit)
}

/// How a line stands. A column has no bound.
#[tactic(auto, unfolding(crate::specs::Rounds::standing_of))]
pub fn standing_of(tableau: &Tableau, values: &[i128], line: usize) -> Standing
    requires values { values.now ≡ map tableau_specs.value_at_place tableau.now.places.items }
    requires within { line < length tableau.now.basics.items }
    ensures { result ≡ specs.standing_of tableau.now.places.items (line_at line (tableau_of tableau.now)) }
{
    match tableau.basic_of(line) {
        Variable::Column(_) => Standing::Within,
        Variable::Slack(slack) => standing_of_slack(tableau, values, line, slack),
    }
}

fn is_out(standing: Standing) -> bool
    ensures { result ≡ not (specs.is_within standing) }
{
    !matches!(standing, Standing::Within)
}

/// Whether a line comes before the best so far.
fn comes_first(tableau: &Tableau, best: Option<usize>, line: usize) -> bool
    requires line { line < length tableau.now.basics.items }
    requires best { IfSome best (λ k. k < length tableau.now.basics.items) }
    ensures { let at = tableau_of tableau.now in result ≡ comes_first (option_map (λ k. line_at k at) best) (line_at line at) }
{
    match best {
        Some(best) => tableau.basic_of(line).comes_before(&tableau.basic_of(best)),
        None => true,
    }
}

/// The best so far, or a line that is out and comes before it.
fn earlier(tableau: &Tableau, values: &[i128], best: Option<usize>, line: usize) -> Option<usize>
    requires values { values.now ≡ map tableau_specs.value_at_place tableau.now.places.items }
    requires line { line < length tableau.now.basics.items }
    requires best { IfSome best (λ k. k < length tableau.now.basics.items) }
    ensures line { let at = tableau_of tableau.now in option_map (λ k. line_at k at) result ≡ earlier_out at.places (option_map (λ k. line_at k at) best) (line_at line at) }
    ensures within { IfSome result (λ k. k < length tableau.now.basics.items) }
{
    if !comes_first(tableau, best, line) {
        return best;
    }
    if !is_out(standing_of(tableau, values, line)) {
        return best;
    }
    Some(line)
}

/// Of the lines that are not within, the one of the lowest row.
pub fn first_out(tableau: &Tableau, values: &[i128]) -> Option<usize>
    requires { values.now ≡ map tableau_specs.value_at_place tableau.now.places.items }
    ensures line { option_map (λ k. line_at k (tableau_of tableau.now)) result ≡ specs.first_out (tableau_of tableau.now) }
    ensures within { IfSome result (λ k. k < length tableau.now.basics.items) }
{
    let mut best = None;
    'lines: for line in 0..tableau.basics.len() {
        best = earlier(tableau, values, best, line);
    }
    best
}
