ghost use Rattle.std.specs.Prelude.{◌≡◌};
ghost use Rattle.command_line.specs.Grammar as specs;

use crate::commands::{Flag, Setting, flag_named, setting_named};

/// What a word other than `--` is, where neither a value nor only operands are expected.
#[derive(Clone, Copy, Debug, PartialEq, Eq)]
pub enum Kind {
    Operand,
    Flag(Flag),
    /// A setting whose value is the next word.
    Before(Setting),
    /// A setting whose value stands in the same word, behind `=`.
    Within(Setting),
    Unknown,
}

/// What the word is.
#[tactic(auto, unfolding(crate::specs::Grammar::kind_of))]
pub fn kind_of(word: &str) -> Kind
    ensures { result ≡ specs.kind_of word.now }
{
    if !begins_with_dash(word) {
        Kind::Operand
    } else {
        option_kind(word)
    }
}

fn begins_with_dash(word: &str) -> bool
    ensures { result ≡ specs.begins_with_dash word.now }
{
    match word.as_bytes() {
        [] => false,
        [first, ..] => *first == b'-',
    }
}

/// Whether the word makes all later words operands.
pub fn is_end(word: &str) -> bool
    ensures { result ≡ specs.is_end word.now }
{
    word == "--"
}

#[tactic(auto, unfolding(crate::specs::Grammar::option_kind))]
fn option_kind(word: &str) -> Kind
    ensures { result ≡ specs.option_kind word.now }
{
    match word.split_once('=') {
        Some((name, _value)) => kind_with_value(setting_named(name)),
        None => kind_alone(flag_named(word), setting_named(word)),
    }
}

fn kind_with_value(setting: Option<Setting>) -> Kind
    ensures { result ≡ specs.kind_with_value setting }
{
    match setting {
        Some(setting) => Kind::Within(setting),
        None => Kind::Unknown,
    }
}

fn kind_alone(flag: Option<Flag>, setting: Option<Setting>) -> Kind
    ensures { result ≡ specs.kind_alone flag setting }
{
    match (flag, setting) {
        (Some(flag), _) => Kind::Flag(flag),
        (None, Some(setting)) => Kind::Before(setting),
        (None, None) => Kind::Unknown,
    }
}

/// What stands behind the first `=` of the word.
pub fn value_within(word: &str) -> &str
    ensures { result.now ≡ specs.value_within word.now }
{
    match word.split_once('=') {
        Some((_name, value)) => value,
        None => "",
    }
}
