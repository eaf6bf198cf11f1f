ghost use Rattle.std.specs.Prelude.{◌≡◌, map, option_map, string_bytes, IfSome, IfNone};
ghost use Rattle.std.specs.Option.{option_and_then};
ghost use Rattle.command_line.specs.Grammar.{arguments, operand};
ghost use Rattle.command_line.specs.Request as specs;
ghost use Rattle.command_line.specs.Request.{Asks};
ghost use Rattle.command_line.specs.Seen.{request_of};
ghost use Rattle.command_line.specs.inside.Seen.{given_of};

use crate::arguments::first_argument;
use crate::commands::command_named;
use crate::given::Given;
use crate::kinds::is_end;
use crate::options::{Options, options_for};
use crate::works::{Work, work_for};

/// What the words ask for, with the texts of the words themselves.
#[derive(Clone, Copy, Debug)]
pub struct Request<'a> {
    pub work: Work<'a>,
    pub options: Options<'a>,
}

/// Reads the words that follow the program's name.
pub fn read_words(words: &[String]) -> Option<Request<'_>>
    ensures asked { IfSome result (λ request. Asks (map string_bytes words.now) (request_of request)) }
    ensures refused { IfNone result ((request : specs.Request) → ¬ Asks (map string_bytes words.now) request) }
{
    let (first, others) = words.split_first()?;
    let command = command_named(first.as_str())?;
    let given = with_words(Given::nothing(), others)?;
    let work = work_for(command, given.operands)?;
    let options = options_for(command, &given)?;
    Some(Request { work, options })
}

/// What was given, with what these words give. It goes one level down an argument, and few can be given.
fn with_words<'a>(given: Given<'a>, words: &'a [String]) -> Option<Given<'a>>
    ensures { option_map given_of result ≡ option_and_then (specs.with_arguments (given_of given.entry)) (arguments (map string_bytes words.now)) }
{
    let Some((word, rest)) = words.split_first() else {
        return Some(given);
    };
    if is_end(word.as_str()) {
        return with_operands(given, rest);
    }
    let (argument, behind) = first_argument(word.as_str(), rest)?;
    with_words(given.with(argument)?, behind)
}

/// What was given, with these words as further operands.
fn with_operands<'a>(given: Given<'a>, words: &'a [String]) -> Option<Given<'a>>
    ensures { option_map given_of result ≡ specs.with_arguments (given_of given.entry) (map operand (map string_bytes words.now)) }
{
    let Some((word, rest)) = words.split_first() else {
        return Some(given);
    };
    with_operands(given.with_operand(word.as_str())?, rest)
}
