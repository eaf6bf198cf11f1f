ghost use Rattle.std.specs.Prelude.{◌≡◌, ℕ, List, IfNone, IfSome};
ghost use Rattle.horn_rules.specs.Home.{Home as HomeMeant};
ghost use Rattle.horn_rules.specs.Stored.{home_of};
ghost use Rattle.annotation_form.specs.inside.Reading.{AreWordsOf, IsHead, IsSmall, is_env};

use crate::line::{behind_colon, is_same, read_number, split_at};
use thr_base::{EdgeNo, Home, Loc, ThreadNo};

/// The home that these words write.
fn read_home(kind: &[u8], thread: &[u8], place: &[u8]) -> Option<Home>
    ensures some { IfSome result (λ home. AreWordsOf (home_of home) kind.now thread.now place.now) }
    ensures small { IfSome result (λ home. IsSmall (home_of home)) }
    ensures none { IfNone result ((home : HomeMeant) → IsSmall home → ¬ AreWordsOf home kind.now thread.now place.now) }
{
    let thread = ThreadNo(read_number(thread)?);
    let place = read_number(place)?;
    if is_same(kind, b"s") {
        return Some(Home::State(thread, Loc(place)));
    }
    if is_same(kind, b"e") {
        return Some(Home::Env(thread, EdgeNo(place)));
    }
    None
}

/// The home in front of a line, and the text of an atom behind it.
pub(crate) fn read_head(line: &[u8]) -> Option<(Home, &[u8])>
    ensures some { IfSome result (λ head. IsHead line.now (home_of head.0) head.1.now) }
    ensures small { IfSome result (λ head. IsSmall (home_of head.0)) }
    ensures none { IfNone result ((home : HomeMeant) (atom : List ℕ) → IsSmall home → ¬ IsHead line.now home atom) }
{
    let (kind, behind_kind) = split_at(line, b' ')?;
    let (thread, behind_thread) = split_at(behind_kind, b' ')?;
    let (place, behind_place) = split_at(behind_thread, b' ')?;
    let atom = behind_colon(behind_place)?;
    let home = read_home(kind, thread, place)?;
    Some((home, atom))
}

/// Whether the home is an edge.
pub(crate) fn is_at_edge(home: Home) -> bool
    ensures { result ≡ is_env (home_of home) }
{
    match home {
        Home::State(_, _) => false,
        Home::Env(_, _) => true,
    }
}
