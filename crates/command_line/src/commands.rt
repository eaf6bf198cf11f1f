ghost use Rattle.std.specs.Prelude.{◌≡◌};
ghost use Rattle.command_line.specs.Grammar as specs;

/// What the program can be asked to do.
#[derive(Clone, Copy, Debug, PartialEq, Eq)]
pub enum Command {
    Verify,
    Tables,
    Check,
    Replay,
    Generate,
    Bench,
    Help,
}

/// An option that is given or not.
#[derive(Clone, Copy, Debug, PartialEq, Eq)]
pub enum Flag {
    Serial,
    Journal,
}

/// An option that has a value.
#[derive(Clone, Copy, Debug, PartialEq, Eq)]
pub enum Setting {
    Rule,
    Start,
    Facts,
    Jobs,
    Refinements,
    Tree,
}

/// The command of this name.
#[tactic(auto, unfolding(crate::specs::Grammar::command_named))]
pub fn command_named(word: &str) -> Option<Command>
    ensures { result ≡ specs.command_named word.now }
{
    match word {
        "verify" => Some(Command::Verify),
        "tables" => Some(Command::Tables),
        "check" => Some(Command::Check),
        "replay" => Some(Command::Replay),
        "generate" => Some(Command::Generate),
        "bench" => Some(Command::Bench),
        "help" => Some(Command::Help),
        _ => None,
    }
}

/// The flag that is written so.
#[tactic(auto, unfolding(crate::specs::Grammar::flag_named))]
pub fn flag_named(word: &str) -> Option<Flag>
    ensures { result ≡ specs.flag_named word.now }
{
    match word {
        "--serial" => Some(Flag::Serial),
        "--journal" => Some(Flag::Journal),
        _ => None,
    }
}

/// The setting that is written so.
#[tactic(auto, unfolding(crate::specs::Grammar::setting_named))]
pub fn setting_named(word: &str) -> Option<Setting>
    ensures { result ≡ specs.setting_named word.now }
{
    match word {
        "--rule" => Some(Setting::Rule),
        "--start" => Some(Setting::Start),
        "--facts" => Some(Setting::Facts),
        "--jobs" => Some(Setting::Jobs),
        "--refinements" => Some(Setting::Refinements),
        "--tree" => Some(Setting::Tree),
        _ => None,
    }
}
