ghost use Rattle.std.specs.Prelude.{◌≡◌, ◌≢◌, ◌<◌, ◌≤◌, ◌+◌, ◌∷◌, ◌++◌, ℕ, ℤ, pos, List, length, drop, codes, unsigned_abs, position, ◌==◌, IfSome, IsTrue, ◌↔◌};
ghost use Rattle.std.specs.List.{AllByRecursion};
ghost use Rattle.thr_base.specs.Number.{Fits, number_text};
ghost use Rattle.transition_formula.specs.AtomText.{factor, joint, term_text};
ghost use Rattle.transition_formula.specs.inside.AtomReading.{HasNoMinus, IsWord, is_negative};

use thr_base::parse_number;

/// The text from a place on.
pub(crate) fn behind(text: &[u8], start: usize) -> &[u8]
    requires { start ≤ length text.now }
    ensures { result.now ≡ drop start text.now }
{
    &text[start..]
}

/// The place of the first mark.
fn place_of(text: &[u8], mark: u8) -> Option<usize>
    ensures value { result ≡ position (λ b. b == mark) text.now }
    ensures within { IfSome result (λ place. place < length text.now) }
{
    text.iter().position(|b| *b == mark)
}

/// How many bytes stand in front of the first mark, or all where there is none.
fn until(text: &[u8], mark: u8) -> usize
    ensures within { result ≤ length text.now }
    ensures marked { (front rest : List ℕ) → AllByRecursion (λ b. b ≢ mark) front → text.now ≡ front ++ (mark ∷ rest) → result ≡ length front }
    ensures unmarked { AllByRecursion (λ b. b ≢ mark) text.now → result ≡ length text.now }
{
    place_of(text, mark).unwrap_or(text.len())
}

/// The number that is written, or 0.
fn number_or_zero(text: &[u8]) -> i128
    ensures fits { Fits result }
    ensures read { (n : ℤ) → Fits n → text.now ≡ number_text n → result ≡ n }
{
    match parse_number(text) {
        Some(number) => number,
        None => 0,
    }
}

/// The size of a coefficient, and where the text of its column begins.
fn read_factor(word: &[u8]) -> (i128, usize)
    ensures fits { Fits result.0 }
    ensures within { result.1 ≤ length word.now }
    ensures read { (n : ℕ) (name : List ℕ) → 0 < n → Fits (pos n) → IsWord name → word.now ≡ factor n ++ name → (result.0 ≡ pos n) × (result.1 ≡ length (factor n)) }
{
    let star = until(word, b'*');
    if star == word.len() {
        return (1, 0);
    }
    (number_or_zero(&word[..star]), star + 1)
}

/// Whether a term is negative, and where it begins behind what joins it to the terms before it.
fn read_joint(text: &[u8], first: bool) -> (bool, usize)
    ensures within { result.1 ≤ length text.now }
    ensures read { (k : ℤ) (rest : List ℕ) → HasNoMinus rest → text.now ≡ joint first k ++ rest → (result.0 ≡ is_negative k) × (result.1 ≡ length (joint first k)) }
    ensures end { (rest : List ℕ) → text.now ≡ codes " <= " ++ rest → result.1 ≡ 0 }
{
    if first {
        return if text.starts_with(b"-") {
            (true, 1)
        } else {
            (false, 0)
        };
    }
    if text.starts_with(b" - ") {
        return (true, 3);
    }
    if text.starts_with(b" + ") {
        return (false, 3);
    }
    (false, 0)
}

fn with_sign(negative: bool, size: i128) -> i128
    requires { Fits size }
    ensures fits { Fits result }
    ensures value { (k : ℤ) → negative ≡ is_negative k → size ≡ pos (unsigned_abs k) → result ≡ k }
{
    if negative { -size } else { size }
}

pub(crate) fn is_same(text: &[u8], other: &[u8]) -> bool
    ensures { IsTrue result ↔ (text.now ≡ other.now) }
{
    text == other
}

/// The coefficient of a column and the length of its term: 0 and 0 where what comes is no term of the column.
pub(crate) fn read_term(text: &[u8], first: bool, name: &[u8]) -> (i128, usize)
    requires { IsWord name.now }
    ensures fits { Fits result.0 }
    ensures within { result.1 ≤ length text.now }
    ensures read { (k : ℤ) (rest : List ℕ) → k ≢ pos 0 → Fits k → text.now ≡ term_text first k name.now ++ (32 ∷ rest) → (result.0 ≡ k) × (result.1 ≡ length (term_text first k name.now)) }
    ensures other { (k : ℤ) (other rest : List ℕ) → k ≢ pos 0 → Fits k → IsWord other → other ≢ name.now → text.now ≡ term_text first k other ++ (32 ∷ rest) → (result.0 ≡ pos 0) × (result.1 ≡ 0) }
    ensures end { (rest : List ℕ) → text.now ≡ codes " <= " ++ rest → (result.0 ≡ pos 0) × (result.1 ≡ 0) }
{
    let (negative, start) = read_joint(text, first);
    let tail = behind(text, start);
    let length = until(tail, b' ');
    let word = &tail[..length];
    let (size, name_start) = read_factor(word);
    if is_same(behind(word, name_start), name) {
        (with_sign(negative, size), start + length)
    } else {
        (0, 0)
    }
}
