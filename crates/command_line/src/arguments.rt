ghost use Rattle.std.specs.Prelude.{◌≡◌, false, map, string_bytes};
ghost use Rattle.command_line.specs.Grammar as specs;
ghost use Rattle.command_line.specs.inside.Seen.{argument_of, FrontIs};

use crate::commands::{Flag, Setting};
use crate::kinds::{Kind, kind_of, value_within};

/// What an argument is.
#[derive(Clone, Copy, Debug, PartialEq, Eq)]
pub enum Part {
    Operand,
    Flag(Flag),
    Setting(Setting),
}

/// What one word, or an option's word and its value, says: an operand, a flag, or a setting with its value as text.
#[derive(Clone, Copy, Debug)]
pub struct Argument<'a> {
    pub part: Part,
    pub text: &'a str,
}

/// The first argument of words, and the words behind it.
pub fn first_argument<'a>(word: &'a str, rest: &'a [String]) -> Option<(Argument<'a>, &'a [String])>
    requires { specs.is_end word.now ≡ false }
    ensures { FrontIs word.now (map string_bytes rest.now) result }
{
    match kind_of(word) {
        Kind::Operand => Some((
            Argument {
                part: Part::Operand,
                text: word,
            },
            rest,
        )),
        Kind::Flag(flag) => Some((
            Argument {
                part: Part::Flag(flag),
                text: word,
            },
            rest,
        )),
        Kind::Within(setting) => Some((
            Argument {
                part: Part::Setting(setting),
                text: value_within(word),
            },
            rest,
        )),
        Kind::Before(setting) => {
            let (value, rest) = rest.split_first()?;
            Some((
                Argument {
                    part: Part::Setting(setting),
                    text: value.as_str(),
                },
                rest,
            ))
        }
        Kind::Unknown => None,
    }
}
