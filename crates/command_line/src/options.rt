ghost use Rattle.std.specs.Prelude.{◌≡◌, ℕ, IfSome, IfNone};
ghost use Rattle.thr_base.specs.declared.limits.Limits.{Limits as SpecLimits};
ghost use Rattle.thr_base.specs.declared.names.RuleName.{RuleName as SpecRule};
ghost use Rattle.command_line.specs.Request as specs;
ghost use Rattle.command_line.specs.Request.{AreLimits, AreOptions, IsRule, IsSetting};
ghost use Rattle.command_line.specs.inside.Seen.{given_of};
ghost use Rattle.command_line.specs.Seen.{options_of, text_of};

use crate::commands::Command;
use crate::given::Given;
use crate::numbers::number_within;
use thr_base::{DEFAULT_LIMITS, Limits, MOST_LIMITS, RuleName};

/// The options of a command, those that were not given at their defaults.
#[derive(Clone, Copy, Debug)]
pub struct Options<'a> {
    pub serial: bool,
    pub journal: bool,
    pub rule: RuleName,
    /// The name of a file with the predicates that a run begins with.
    pub start: Option<&'a str>,
    pub limits: Limits,
}

/// The options of the command that were given, if it has them and their values are allowed.
pub fn options_for<'a>(command: Command, given: &Given<'a>) -> Option<Options<'a>>
    ensures some { IfSome result (λ options. AreOptions command (given_of given.now) (options_of options)) }
    ensures none { IfNone result ((options : specs.Options) → ¬ AreOptions command (given_of given.now) options) }
{
    if !allows(command, given) {
        return None;
    }
    let rule = rule(given.rule)?;
    let limits = limits(given)?;
    Some(Options {
        serial: given.serial,
        journal: given.journal,
        rule,
        start: given.start,
        limits,
    })
}

/// Whether the command has all options that were given.
fn allows(command: Command, given: &Given<'_>) -> bool
    ensures { result ≡ specs.allows command (given_of given.now) }
{
    match command {
        Command::Verify => true,
        Command::Tables => has_only_those_of_tables(given),
        Command::Check | Command::Replay | Command::Generate | Command::Bench | Command::Help => {
            has_only_those_of_tables(given)
                && given.rule.is_none()
                && given.facts.is_none()
                && given.jobs.is_none()
        }
    }
}

fn has_only_those_of_tables(given: &Given<'_>) -> bool
    ensures { result ≡ specs.has_only_those_of_tables (given_of given.now) }
{
    !given.serial
        && !given.journal
        && given.start.is_none()
        && given.refinements.is_none()
        && given.tree.is_none()
}

/// The rule of this name, or that of rely-guarantee where none is given.
fn rule(text: Option<&str>) -> Option<RuleName>
    ensures some { IfSome result (IsRule (text_of text.entry)) }
    ensures none { IfNone result ((rule : SpecRule) → ¬ IsRule (text_of text.entry) rule) }
{
    match text {
        None | Some("rg") => Some(RuleName::Rg),
        Some("og") => Some(RuleName::Og),
        Some(_) => None,
    }
}

fn limits(given: &Given<'_>) -> Option<Limits>
    ensures some { IfSome result (AreLimits (given_of given.now)) }
    ensures none { IfNone result ((limits : SpecLimits) → ¬ AreLimits (given_of given.now) limits) }
{
    let facts = limit(given.facts, 1, MOST_LIMITS.facts, DEFAULT_LIMITS.facts)?;
    let jobs = limit(given.jobs, 1, MOST_LIMITS.jobs, DEFAULT_LIMITS.jobs)?;
    let refinements = limit(
        given.refinements,
        0,
        MOST_LIMITS.refinements,
        DEFAULT_LIMITS.refinements,
    )?;
    let tree = limit(given.tree, 1, MOST_LIMITS.tree, DEFAULT_LIMITS.tree)?;
    Some(Limits {
        facts,
        jobs,
        refinements,
        tree,
    })
}

/// The number that the text writes, from `least` to `most`, or the default where no text is given.
fn limit(text: Option<&str>, least: u32, most: u32, default: u32) -> Option<u32>
    ensures some { IfSome result (IsSetting least most default (text_of text.entry)) }
    ensures none { IfNone result ((n : ℕ) → ¬ IsSetting least most default (text_of text.entry) n) }
{
    match text {
        None => Some(default),
        Some(text) => number_within(text, least, most),
    }
}
