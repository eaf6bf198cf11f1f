ghost use Rattle.std.specs.Prelude.{◌≡◌, ◌++◌, ◌↔◌, ℤ, List, ℕ, Some, IfSome, IfNone, IsTrue, OnOk, OnErr};
ghost use Rattle.thr_base.specs.Number.{Fits, number_text, IsTextOf};

use itoa::Buffer;
use std::alloc::AllocError;
use std::str;

/// Reads the text of a number that fits. It takes no memory.
pub fn parse_number(text: &[u8]) -> Option<i128>
    ensures value { IfSome result (λ n. Fits n × (text.now ≡ number_text n)) }
    ensures none { IfNone result ((n : ℤ) → Fits n → ¬ (text.now ≡ number_text n)) }
    // What is printed is read again as the same number.
    ensures printed { (n : ℤ) → Fits n → text.now ≡ number_text n → result ≡ Some n }
{
    let number = read(text)?;
    if number != i128::MIN && is_text_of(text, number) {
        Some(number)
    } else {
        None
    }
}

/// Appends the text of the number.
pub fn push_number(out: &mut Vec<u8>, n: i128) -> Result<(), AllocError>
    requires { Fits n }
    ensures ok { OnOk result (out.new.items ≡ out.old.items ++ number_text n) }
    ensures err { OnErr result (out.new.items ≡ out.old.items) }
{
    out.extend_from_slice(Buffer::new().format(n).as_bytes())
}

/// The text of a number that fits is the decimal text of it, and the only one.
pub fn number_text_is_decimal()
    ensures is { (n : ℤ) → Fits n → IsTextOf n (number_text n) }
    ensures only { (n : ℤ) (text : List ℕ) → Fits n → IsTextOf n text → text ≡ number_text n }
{}

/// Reads a number that may have other texts too, as one with a plus.
fn read(text: &[u8]) -> Option<i128>
    ensures { (n : ℤ) → Fits n → text.now ≡ number_text n → result ≡ Some n }
{
    match str::from_utf8(text) {
        Ok(text) => text.parse().ok(),
        Err(_) => None,
    }
}

fn is_text_of(text: &[u8], n: i128) -> bool
    ensures { IsTrue result ↔ (text.now ≡ number_text n) }
{
    text == Buffer::new().format(n).as_bytes()
}
