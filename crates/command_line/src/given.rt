ghost use Rattle.std.specs.Prelude.{◌≡◌, option_map};
ghost use Rattle.command_line.specs.Request as specs;
ghost use Rattle.command_line.specs.inside.Seen.{argument_of, given_of};
ghost use Rattle.command_line.specs.Seen.{text_of};

use crate::arguments::{Argument, Part};
use crate::commands::{Flag, Setting};

/// Operands: no command has more than two.
#[derive(Clone, Copy, Debug)]
pub enum Operands<'a> {
    Missing,
    One(&'a str),
    Two(&'a str, &'a str),
}

/// What arguments gave: operands, flags, and the values of settings as texts.
#[derive(Clone, Copy, Debug)]
pub struct Given<'a> {
    pub operands: Operands<'a>,
    pub serial: bool,
    pub journal: bool,
    pub rule: Option<&'a str>,
    pub start: Option<&'a str>,
    pub facts: Option<&'a str>,
    pub jobs: Option<&'a str>,
    pub refinements: Option<&'a str>,
    pub tree: Option<&'a str>,
}

impl<'a> Given<'a> {
    /// Where no argument was read yet.
    pub fn nothing() -> Given<'a>
        ensures { given_of result ≡ specs.nothing }
    {
        Given {
            operands: Operands::Missing,
            serial: false,
            journal: false,
            rule: None,
            start: None,
            facts: None,
            jobs: None,
            refinements: None,
            tree: None,
        }
    }

    /// With one argument more, unless it gives again what was given, or is a third operand.
    pub fn with(self, argument: Argument<'a>) -> Option<Given<'a>>
        ensures { option_map given_of result ≡ specs.with_argument (given_of self.entry) (argument_of argument.entry) }
    {
        match argument.part {
            Part::Operand => self.with_operand(argument.text),
            Part::Flag(flag) => self.with_flag(flag),
            Part::Setting(setting) => self.with_setting(setting, argument.text),
        }
    }

    pub fn with_operand(self, word: &'a str) -> Option<Given<'a>>
        ensures { option_map given_of result ≡ specs.with_operand (given_of self.entry) word.now }
    {
        match self.operands {
            Operands::Missing => Some(Given {
                operands: Operands::One(word),
                ..self
            }),
            Operands::One(first) => Some(Given {
                operands: Operands::Two(first, word),
                ..self
            }),
            Operands::Two(..) => None,
        }
    }

    fn with_flag(self, flag: Flag) -> Option<Given<'a>>
        ensures { option_map given_of result ≡ specs.with_flag (given_of self.entry) flag }
    {
        match flag {
            Flag::Serial if !self.serial => Some(Given {
                serial: true,
                ..self
            }),
            Flag::Journal if !self.journal => Some(Given {
                journal: true,
                ..self
            }),
            Flag::Serial | Flag::Journal => None,
        }
    }

    fn with_setting(self, setting: Setting, value: &'a str) -> Option<Given<'a>>
        ensures { option_map given_of result ≡ specs.with_setting (given_of self.entry) setting value.now }
    {
        let given = self;
        match setting {
            Setting::Rule => Some(Given {
                rule: Some(first(given.rule, value)?),
                ..given
            }),
            Setting::Start => Some(Given {
                start: Some(first(given.start, value)?),
                ..given
            }),
            Setting::Facts => Some(Given {
                facts: Some(first(given.facts, value)?),
                ..given
            }),
            Setting::Jobs => Some(Given {
                jobs: Some(first(given.jobs, value)?),
                ..given
            }),
            Setting::Refinements => Some(Given {
                refinements: Some(first(given.refinements, value)?),
                ..given
            }),
            Setting::Tree => Some(Given {
                tree: Some(first(given.tree, value)?),
                ..given
            }),
        }
    }
}

/// The value, where none was given before.
fn first<'a>(before: Option<&'a str>, value: &'a str) -> Option<&'a str>
    ensures { text_of result ≡ specs.first (text_of before.entry) value.now }
{
    match before {
        None => Some(value),
        Some(_) => None,
    }
}
