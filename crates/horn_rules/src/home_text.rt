ghost use Rattle.std.specs.Prelude.{◌≡◌, ◌++◌, pos, codes, OnOk, OnErr};
ghost use Rattle.thr_base.specs.Number.{number_text};
ghost use Rattle.horn_rules.specs.HomeText.{home_text};
ghost use Rattle.horn_rules.specs.Stored.{home_of};

use std::alloc::AllocError;
use thr_base::{Home, ThreadNo, push_number};

/// Appends the text of a home. It is made apart, so that nothing of it stands there where memory is wanting.
pub fn push_home(out: &mut Vec<u8>, home: Home) -> Result<(), AllocError>
    ensures ok { OnOk result (out.new.items ≡ out.old.items ++ home_text (home_of home)) }
    ensures err { OnErr result (out.new.items ≡ out.old.items) }
{
    let mut text = Vec::new(*out.allocator());
    push_parts(&mut text, home)?;
    out.extend_from_slice(text.as_slice())
}

/// Appends the text of a home; where memory is wanting, a part of it.
pub(crate) fn push_parts(out: &mut Vec<u8>, home: Home) -> Result<(), AllocError>
    ensures { OnOk result (out.new.items ≡ out.old.items ++ home_text (home_of home)) }
{
    match home {
        Home::State(thread, location) => push_words(out, b"s ", thread, location.0),
        Home::Env(thread, edge) => push_words(out, b"e ", thread, edge.0),
    }
}

fn push_words(
    out: &mut Vec<u8>,
    kind: &[u8],
    thread: ThreadNo,
    place: u32,
) -> Result<(), AllocError>
    ensures { OnOk result (out.new.items ≡ out.old.items ++ (kind.now ++ (number_text (pos thread.0) ++ (codes " " ++ number_text (pos place))))) }
{
    out.extend_from_slice(kind)?;
    push_number(out, i128::from(thread.0))?;
    out.extend_from_slice(b" ")?;
    push_number(out, i128::from(place))
}
