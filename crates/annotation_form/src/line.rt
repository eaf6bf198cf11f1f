ghost use Rattle.std.specs.Prelude.{◌≡◌, ◌≢◌, ◌==◌, ◌∷◌, ◌++◌, ◌^◌, ◌<◌, ◌≤◌, ◌↔◌, ℕ, List, pos, codes, drop, length, position, take, IfNone, IfSome, IsTrue};
ghost use Rattle.std.specs.List.{AllByRecursion};
ghost use Rattle.thr_base.specs.Number.{number_text};

use thr_base::parse_number;

/// The place of the first mark.
fn place_of(text: &[u8], mark: u8) -> Option<usize>
    ensures value { result ≡ position (λ b. b == mark) text.now }
    ensures within { IfSome result (λ place. place < length text.now) }
{
    text.iter().position(|b| *b == mark)
}

/// The text up to a place.
fn up_to(text: &[u8], end: usize) -> &[u8]
    requires { end ≤ length text.now }
    ensures { result.now ≡ take end text.now }
{
    &text[..end]
}

/// The text from a place on.
fn behind(text: &[u8], start: usize) -> &[u8]
    requires { start ≤ length text.now }
    ensures { result.now ≡ drop start text.now }
{
    &text[start..]
}

/// What stands in front of the first mark, and what behind it.
pub(crate) fn split_at(text: &[u8], mark: u8) -> Option<(&[u8], &[u8])>
    ensures plain { IfSome result (λ parts. AllByRecursion (λ b. b ≢ mark) parts.0.now) }
    ensures parts { IfSome result (λ parts. text.now ≡ parts.0.now ++ (mark ∷ parts.1.now)) }
    ensures none { IfNone result (AllByRecursion (λ b. b ≢ mark) text.now) }
{
    let place = place_of(text, mark)?;
    Some((up_to(text, place), behind(text, place + 1)))
}

pub(crate) fn is_same(text: &[u8], other: &[u8]) -> bool
    ensures { IsTrue result ↔ (text.now ≡ other.now) }
{
    text == other
}

/// What stands behind `: `.
pub(crate) fn behind_colon(text: &[u8]) -> Option<&[u8]>
    ensures some { IfSome result (λ rest. text.now ≡ codes ": " ++ rest.now) }
    ensures none { IfNone result ((rest : List ℕ) → ¬ (text.now ≡ codes ": " ++ rest)) }
{
    text.strip_prefix(b": ")
}

/// The number that is written.
pub(crate) fn read_number(text: &[u8]) -> Option<u32>
    ensures some { IfSome result (λ n. text.now ≡ number_text (pos n)) }
    ensures none { IfNone result ((n : ℕ) → n < 2 ^ 32 → ¬ (text.now ≡ number_text (pos n))) }
{
    let number = parse_number(text)?;
    match u32::try_from(number) {
        Ok(number) => Some(number),
        Err(_) => None,
    }
}
