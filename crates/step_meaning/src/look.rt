ghost use Rattle.std.specs.Prelude.{◌≡◌, ◌<◌, ◌+◌, ◌++◌, ℕ, Some, length, map};
ghost use Rattle.std.specs.List.{AllByRecursion};
ghost use Rattle.lin_rows.specs.System.{IsRowOver};
ghost use Rattle.lin_rows.specs.View.{row_of, system_of};
ghost use Rattle.transition_formula.specs.Program.{IsFormOver};
ghost use Rattle.transition_formula.specs.Stored.{edge_of, form_of, set_of};
ghost use Rattle.step_meaning.specs.Outcome.{source_holds, row_holds, test_holds, set_holds, looked_at, first_stop};

use lin_rows::{RowView, RowsView};
use transition_formula::{Edge, Line, sum_at};

/// Whether the counter is at the edge's source.
fn is_at_source(counter: u32, edge: &Edge, state: &[i128]) -> bool
    requires { counter < length state.now }
    ensures { source_holds counter (edge_of edge.now) state.now ≡ Some result }
{
    state[counter as usize] == i128::from(edge.from.0)
}

/// Whether a row holds where the sum of its products is this.
fn is_met(row: &RowView<'_>, sum: i128) -> bool
    ensures { result ≡ row_holds (row_of row.now) sum }
{
    if row.equal {
        sum == row.bound
    } else {
        sum <= row.bound
    }
}

/// Whether a test holds; nothing is said where its sum does not fit.
fn test_holds(row: &RowView<'_>, state: &[i128], inputs: &[i128]) -> Option<bool>
    requires { length row.now.coefficients.now ≡ length state.now + length inputs.now }
    ensures { result ≡ test_holds (state.now ++ inputs.now) (row_of row.now) }
{
    let sum = sum_at(row.coefficients, state, inputs)?;
    Some(is_met(row, sum))
}

/// Whether all tests hold; the first that does not go through is told.
fn tests_hold(tests: &RowsView<'_>, state: &[i128], inputs: &[i128]) -> Option<bool>
    requires { AllByRecursion (IsRowOver (length state.now + length inputs.now)) (system_of tests.now).rows }
    ensures { result ≡ first_stop (map (test_holds (state.now ++ inputs.now)) (system_of tests.now).rows) }
{
    'tests: for place in 0..tests.count() {
        match test_holds(&tests.row(place), state, inputs) {
            Some(true) => {}
            Some(false) => return Some(false),
            None => return None,
        }
    }
    Some(true)
}

/// Whether a set goes through: its line's value fits.
fn set_holds(line: &Line, state: &[i128], inputs: &[i128]) -> Option<bool>
    requires { length (form_of line.now).coefficients ≡ length state.now + length inputs.now }
    ensures { (column : ℕ) → result ≡ set_holds (state.now ++ inputs.now) (column, form_of line.now) }
{
    line.value_at(state, inputs).map(|_| true)
}

/// Whether all sets go through.
fn sets_hold(sets: &[(u32, Line)], state: &[i128], inputs: &[i128]) -> Option<bool>
    requires { AllByRecursion (λ set. IsFormOver (length state.now + length inputs.now) set.1) (map set_of sets.now) }
    ensures { result ≡ first_stop (map (set_holds (state.now ++ inputs.now)) (map set_of sets.now)) }
{
    'sets: for set in sets {
        match set_holds(&set.1, state, inputs) {
            Some(true) => {}
            Some(false) => return Some(false),
            None => return None,
        }
    }
    Some(true)
}

/// What a step looks at, in order: that all of it holds, or the first that does not go through.
pub(crate) fn first_stop(counter: u32, edge: &Edge, state: &[i128], inputs: &[i128]) -> Option<bool>
    requires within { counter < length state.now }
    requires tests { AllByRecursion (IsRowOver (length state.now + length inputs.now)) (edge_of edge.now).tests }
    requires sets { AllByRecursion (λ set. IsFormOver (length state.now + length inputs.now) set.1) (edge_of edge.now).sets }
    ensures { result ≡ first_stop (looked_at counter (edge_of edge.now) state.now inputs.now) }
{
    if !is_at_source(counter, edge, state) {
        return Some(false);
    }
    match tests_hold(&edge.tests.view(), state, inputs) {
        Some(true) => sets_hold(edge.sets.as_slice(), state, inputs),
        Some(false) => Some(false),
        None => None,
    }
}
