//! Numbers, as they are written.

ghost use Rattle.std.specs.Prelude.{◌≡◌, neg_ℤ};
ghost use Rattle.std.specs.Char.{is_ascii_digit};
ghost use Rattle.std.specs.List.{list_all};
ghost use Rattle.thr_base.specs.Number.{Fits};
ghost use Rattle.c_tree.specs.Grammar.{number_value};

use std::marker::Model;

/// What decimal digits write: a number that is not negative, and fits.
#[derive(Clone, Copy, Debug, PartialEq, Eq)]
pub struct Magnitude {
    value: i128,
}

impl Model for Magnitude {
    ghost use Rattle.std.specs.Prelude.{ℤ};
    ghost use Rattle.c_tree.specs.Magnitude.{IsMagnitude};

    ghost Value = { ℤ };

    ghost view = { λ inside. inside.value };

    ghost inverse = { λ number. record { value = number } };

    ghost invariant = { λ inside. IsMagnitude inside.value };
}

fn are_digits(text: &str) -> bool
    ensures { result ≡ list_all is_ascii_digit text.now }
{
    text.as_bytes().iter().all(|b| b.is_ascii_digit())
}

// The number that digits write, where it is below 2^127.
fn digits_value(text: &str) -> Option<i128>
    ensures { result ≡ number_value text.now }
{
    if text.is_empty() || !are_digits(text) {
        return None;
    }
    text.parse::<i128>().ok()
}

impl Magnitude {
    /// What digits write, where it is below 2^127.
    pub fn of_digits(text: &str) -> Option<Magnitude>
        ensures { result ≡ number_value text.now }
    {
        match digits_value(text) {
            Some(value) => Some(Magnitude { value }),
            None => None,
        }
    }

    pub fn number(self) -> i128
        ensures number { result ≡ self }
        ensures fits { Fits result }
    {
        self.value
    }

    /// The number with a `-` in front of it.
    pub fn negative(self) -> i128
        ensures number { result ≡ neg_ℤ self }
        ensures fits { Fits result }
    {
        -self.value
    }
}
