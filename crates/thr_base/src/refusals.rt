ghost use Rattle.std.specs.Prelude.{◌≡◌, ◌↔◌, IsTrue};
ghost use Rattle.thr_base.specs.Refusals.{OrderIsTested, Precedes, not_text, bad_byte, bad_number, expected, not_in_profile, unknown_name, twice_named, not_linear, bad_main, no_thread, too_many, atomic_body, coefficient};

use crate::stops::Refusal;

/// The bytes are no text.
pub const NOT_TEXT: u8 = 1;

/// A byte begins no token.
pub const BAD_BYTE: u8 = 2;

/// A number does not fit, has a needless zero, or runs into a word.
pub const BAD_NUMBER: u8 = 3;

/// The grammar has no such token there.
pub const EXPECTED: u8 = 4;

/// Nor has it, and the token is of a part of C that is left out.
pub const NOT_IN_PROFILE: u8 = 5;

/// A name is not declared with the kind of its use.
pub const UNKNOWN_NAME: u8 = 6;

/// A name is declared twice in one scope.
pub const TWICE_NAMED: u8 = 7;

/// A product has no constant side, or a comparison is used as a number.
pub const NOT_LINEAR: u8 = 8;

/// `main` is not in its form, or a thread does what `main` alone may do.
pub const BAD_MAIN: u8 = 9;

/// `main` creates no thread.
pub const NO_THREAD: u8 = 10;

/// A limit is passed.
pub const TOO_MANY: u8 = 11;

/// A statement may not stand in an atomic block.
pub const ATOMIC_BODY: u8 = 12;

/// A number of a linear form or of its rows does not fit.
pub const COEFFICIENT: u8 = 13;

/// Whether the first of two refusals of a text is the one to name: that at the lower place, at one place that with the lower code.
pub fn is_earlier(one: Refusal, other: Refusal) -> bool
    ensures { IsTrue result ↔ Precedes one other }
{
    (one.place, one.code) < (other.place, other.code)
}

/// The test of the order on refusals tests that order.
pub fn order_is_tested()
    ensures { OrderIsTested }
{}

/// The codes of the rules are those that definitions cite.
pub fn codes_are_as_defined()
    ensures not_text { NOT_TEXT ≡ not_text }
    ensures bad_byte { BAD_BYTE ≡ bad_byte }
    ensures bad_number { BAD_NUMBER ≡ bad_number }
    ensures expected { EXPECTED ≡ expected }
    ensures not_in_profile { NOT_IN_PROFILE ≡ not_in_profile }
    ensures unknown_name { UNKNOWN_NAME ≡ unknown_name }
    ensures twice_named { TWICE_NAMED ≡ twice_named }
    ensures not_linear { NOT_LINEAR ≡ not_linear }
    ensures bad_main { BAD_MAIN ≡ bad_main }
    ensures no_thread { NO_THREAD ≡ no_thread }
    ensures too_many { TOO_MANY ≡ too_many }
    ensures atomic_body { ATOMIC_BODY ≡ atomic_body }
    ensures coefficient { COEFFICIENT ≡ coefficient }
{}
