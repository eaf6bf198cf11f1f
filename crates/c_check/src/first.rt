//! The first of refusals, as they are found in turn.

ghost use Rattle.std.specs.Prelude.{◌≡◌};
ghost use Rattle.c_check.specs.Broken.{broken_if};
ghost use Rattle.c_check.specs.First.{FirstsAreFirst, earlier, first_of, of_two};

use thr_base::{Refusal, is_earlier};

/// A refusal by a rule at a place, where it is broken there.
pub fn refusal_if(is_broken: bool, code: u8, place: u32) -> Option<Refusal>
    ensures { result ≡ first_of (broken_if is_broken code place) }
{
    if is_broken {
        Some(Refusal { code, place })
    } else {
        None
    }
}

/// The earlier of two refusals that there may be: that at the lower place, at one place that with the lower code.
pub fn earlier(one: Option<Refusal>, other: Option<Refusal>) -> Option<Refusal>
    ensures { result ≡ earlier one other }
{
    match (one, other) {
        (None, other) => other,
        (one, None) => one,
        (Some(d), Some(e)) => Some(of_two(d, e)),
    }
}

// The earlier of two.
fn of_two(one: Refusal, other: Refusal) -> Refusal
    ensures { result ≡ of_two one other }
{
    if is_earlier(other, one) { other } else { one }
}

/// What is kept by `earlier`, of lists of refusals that are made in turn, is the first of all of them.
pub fn firsts_are_first()
    ensures { FirstsAreFirst }
{}
