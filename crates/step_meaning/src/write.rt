ghost use Rattle.std.specs.Prelude.{◌≡◌, ◌<◌, ◌+◌, ◌++◌, pos, length, map, slice_set, IsSome};
ghost use Rattle.std.specs.List.{AllByRecursion};
ghost use Rattle.transition_formula.specs.Program.{IsFormOver};
ghost use Rattle.transition_formula.specs.Step.{value_of, after_sets};
ghost use Rattle.transition_formula.specs.Forms.{value_if_fits};
ghost use Rattle.transition_formula.specs.Stored.{edge_of, form_of, set_of};

use transition_formula::{Edge, Line};

/// The value of a line whose value fits.
fn value_of(line: &Line, state: &[i128], inputs: &[i128]) -> i128
    requires width { length (form_of line.now).coefficients ≡ length state.now + length inputs.now }
    requires fits { IsSome (value_if_fits (form_of line.now) (state.now ++ inputs.now)) }
    ensures { result ≡ value_of (form_of line.now) (state.now ++ inputs.now) }
{
    line.value_at(state, inputs).unwrap()
}

/// Puts the value of a line into its column.
fn write_set(set: &(u32, Line), state: &[i128], inputs: &[i128], next: &mut [i128])
    requires within { set.now.0 < length next.old }
    requires over { IsFormOver (length state.now + length inputs.now) (form_of set.now.1) }
    requires fits { IsSome (value_if_fits (form_of set.now.1) (state.now ++ inputs.now)) }
    ensures { next.new ≡ slice_set next.old set.now.0 (value_of (form_of set.now.1) (state.now ++ inputs.now)) }
{
    next[set.0 as usize] = value_of(&set.1, state, inputs);
}

/// Puts the values of lines into their columns, the last one first, as the definition has it: no column is set twice.
fn write_sets(sets: &[(u32, Line)], state: &[i128], inputs: &[i128], next: &mut [i128])
    requires within { AllByRecursion (λ set. set.0 < length next.old) (map set_of sets.now) }
    requires over { AllByRecursion (λ set. IsFormOver (length state.now + length inputs.now) set.1) (map set_of sets.now) }
    requires fit { AllByRecursion (λ set. IsSome (value_if_fits set.1 (state.now ++ inputs.now))) (map set_of sets.now) }
    ensures { next.new ≡ after_sets (map set_of sets.now) (state.now ++ inputs.now) next.old }
{
    let mut left = sets.len();
    'sets: while left > 0 {
        left -= 1;
        write_set(&sets[left], state, inputs, next);
    }
}

/// Writes the state after a step whose numbers fit: the sets' values at the state before, and the counter at the target.
pub(crate) fn write_after(
    counter: u32,
    edge: &Edge,
    state: &[i128],
    inputs: &[i128],
    next: &mut [i128],
)
    requires lengths { length next.old ≡ length state.now }
    requires counter { counter < length state.now }
    requires within { AllByRecursion (λ set. set.0 < length state.now) (edge_of edge.now).sets }
    requires over { AllByRecursion (λ set. IsFormOver (length state.now + length inputs.now) set.1) (edge_of edge.now).sets }
    requires fit { AllByRecursion (λ set. IsSome (value_if_fits set.1 (state.now ++ inputs.now))) (edge_of edge.now).sets }
    ensures { next.new ≡ slice_set (after_sets (edge_of edge.now).sets (state.now ++ inputs.now) state.now) counter (pos (edge_of edge.now).to) }
{
    next.copy_from_slice(state);
    write_sets(edge.sets.as_slice(), state, inputs, next);
    next[counter as usize] = i128::from(edge.to.0);
}
