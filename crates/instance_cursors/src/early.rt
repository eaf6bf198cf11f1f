ghost use Rattle.std.specs.Prelude.{◌≡◌};
ghost use Rattle.instance_cursors.specs.Turns as specs;

use crate::turns::{Series, Turn};

/// A turn that was taken before its cursor came to it.
#[derive(Clone, Copy, Debug, PartialEq, Eq)]
pub struct Early {
    pub series: Series,
    pub turn: Turn,
}

/// Whether the turn was taken early.
pub(crate) fn is_early(early: &[Early], series: Series, turn: Turn) -> bool
    ensures { result ≡ specs.is_early early.now series turn }
{
    early.iter().any(|each| is_turn(series, turn, *each))
}

fn is_turn(series: Series, turn: Turn, early: Early) -> bool
    ensures { result ≡ specs.is_turn series turn early }
{
    same_series(early.series, series) && same_turn(early.turn, turn)
}

fn same_series(one: Series, other: Series) -> bool
    ensures { result ≡ specs.same_series one other }
{
    match (one, other) {
        (Series::Own(edge), Series::Own(second)) => edge == second,
        (Series::Told(edge), Series::Told(second)) => edge == second,
        (Series::Beside(home, id), Series::Beside(at, second)) => {
            home.0 == at.0 && id.0 == second.0
        }
        _ => false,
    }
}

pub(crate) fn same_turn(one: Turn, other: Turn) -> bool
    ensures { result ≡ specs.same_turn one other }
{
    one.id.0 == other.id.0 && one.step == other.step
}
