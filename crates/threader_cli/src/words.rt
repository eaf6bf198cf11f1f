ghost use Rattle.std.specs.Prelude.{map, string_bytes, option_map, IfSome, IfNone};
ghost use Rattle.threader_cli.specs.Answer.{AskForNothingBuilt, AsksTables};

use command_line::{Work, read_words, words_ask_for_one};
use thr_base::{Limits, RuleName};

/// The names of the files that a call reads, and what its run may use.
#[derive(Clone, Copy)]
pub struct Asked<'a> {
    pub program: &'a str,
    pub predicates: Option<&'a str>,
    pub limits: Limits,
}

/// What the words ask of the tables by rely-guarantee. All else that words can ask for is not built.
pub fn tables_asked(words: &[String]) -> Option<Asked<'_>>
    ensures asked { IfSome result (λ asked. AsksTables (map string_bytes words.now) asked.program.now (option_map (λ name. name.now) asked.predicates) asked.limits) }
    ensures refused { IfNone result (AskForNothingBuilt (map string_bytes words.now)) }
{
    words_ask_for_one();
    let request = read_words(words)?;
    match request.work {
        Work::Tables(program, predicates) => match request.options.rule {
            RuleName::Rg => Some(Asked {
                program,
                predicates,
                limits: request.options.limits,
            }),
            RuleName::Og => None,
        },
        Work::Verify(_) => None,
        Work::Check(..) => None,
        Work::Replay(..) => None,
        Work::Generate(_) => None,
        Work::Bench(_) => None,
        Work::Help => None,
    }
}
