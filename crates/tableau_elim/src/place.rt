ghost use Rattle.std.specs.Prelude.{◌≡◌, cond, Some, length};
ghost use Rattle.tableau_elim.specs.Rounds as specs;

use crate::standing::Side;
use crate::variable::Variable;

/// Whether a place with this variable and this number can mend a line that is out on this side.
fn is_suitable(side: Side, variable: &Variable, number: i128) -> bool
    ensures { result ≡ specs.is_suitable side variable.now number }
{
    match (variable, side) {
        (Variable::Column(_), _) => number != 0,
        (Variable::Slack(slack), Side::High) => !slack.equal && 0 < number,
        (Variable::Slack(slack), Side::Low) => !slack.equal && number < 0,
    }
}

/// Of a place that may be there and another the one whose variable comes first.
fn lower(best: Option<(usize, Variable)>, place: usize, variable: Variable) -> (usize, Variable)
    ensures { Some result ≡ specs.lower best (place, variable) }
{
    match best {
        Some(best) => {
            if variable.comes_before(&best.1) {
                (place, variable)
            } else {
                best
            }
        }
        None => (place, variable),
    }
}

/// The best so far, or a suitable place whose variable comes before it.
fn better(
    side: Side,
    best: Option<(usize, Variable)>,
    place: usize,
    variable: Variable,
    number: i128,
) -> Option<(usize, Variable)>
    ensures { result ≡ cond (specs.is_suitable side variable number) (specs.lower best (place, variable)) best }
{
    if is_suitable(side, &variable, number) {
        Some(lower(best, place, variable))
    } else {
        best
    }
}

/// The suitable place whose variable comes first.
#[tactic(auto, unfolding(crate::specs::Rounds::chosen_place))]
pub fn chosen_place(side: Side, places: &[Variable], numbers: &[i128]) -> Option<usize>
    requires { length numbers.now ≡ length places.now }
    ensures { result ≡ specs.chosen_place side places.now numbers.now }
{
    let mut best = None;
    'places: for place in 0..places.len() {
        best = better(side, best, place, places[place], numbers[place]);
    }
    match best {
        Some(best) => Some(best.0),
        None => None,
    }
}
