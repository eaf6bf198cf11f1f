ghost use Rattle.std.specs.Prelude.{◌≡◌, ◌≤◌, ℕ, pos, IfSome, IfNone};
ghost use Rattle.command_line.specs.Request.{IsNumber};

use thr_base::parse_number;

/// The number from `least` to `most` that the text writes.
pub fn number_within(text: &str, least: u32, most: u32) -> Option<u32>
    ensures some { IfSome result (λ n. IsNumber least most text.now n) }
    ensures none { IfNone result ((n : ℕ) → ¬ IsNumber least most text.now n) }
{
    match parse_number(text.as_bytes()) {
        Some(number) => within(number, least, most),
        None => None,
    }
}

/// The number, where it is from `least` to `most`.
fn within(number: i128, least: u32, most: u32) -> Option<u32>
    ensures some { IfSome result (λ n. (number ≡ pos n) × (least ≤ n) × (n ≤ most)) }
    ensures none { IfNone result ((n : ℕ) → number ≡ pos n → least ≤ n → n ≤ most → ⊥) }
{
    match u32::try_from(number) {
        Ok(number) if least <= number && number <= most => Some(number),
        _ => None,
    }
}
