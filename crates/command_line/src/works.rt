ghost use Rattle.std.specs.Prelude.{IfSome, IfNone};
ghost use Rattle.command_line.specs.Request as specs;
ghost use Rattle.command_line.specs.Request.{IsWork};
ghost use Rattle.command_line.specs.inside.Seen.{operands_of};
ghost use Rattle.command_line.specs.Seen.{work_of};

use crate::commands::Command;
use crate::given::Operands;
use crate::numbers::number_within;
use thr_base::MOST_GENERATED;

/// What is to be done, with the names of the files that it reads, or a number.
#[derive(Clone, Copy, Debug)]
pub enum Work<'a> {
    /// Verify this program.
    Verify(&'a str),
    /// Print the table of this program, with the predicates of that file.
    Tables(&'a str, Option<&'a str>),
    /// Check whether this program has that annotation.
    Check(&'a str, &'a str),
    /// Run this program by that schedule.
    Replay(&'a str, &'a str),
    /// Write the program of this size.
    Generate(u32),
    /// Print the size of the table of the generated program.
    Bench(u32),
    Help,
}

/// What the command does with these operands, if they are such as it has.
pub fn work_for<'a>(command: Command, operands: Operands<'a>) -> Option<Work<'a>>
    ensures some { IfSome result (λ work. IsWork command (operands_of operands.entry) (work_of work)) }
    ensures none { IfNone result ((work : specs.Work) → ¬ IsWork command (operands_of operands.entry) work) }
{
    match (command, operands) {
        (Command::Verify, Operands::One(program)) => Some(Work::Verify(program)),
        (Command::Tables, Operands::One(program)) => Some(Work::Tables(program, None)),
        (Command::Tables, Operands::Two(program, predicates)) => {
            Some(Work::Tables(program, Some(predicates)))
        }
        (Command::Check, Operands::Two(program, annotation)) => {
            Some(Work::Check(program, annotation))
        }
        (Command::Replay, Operands::Two(program, schedule)) => {
            Some(Work::Replay(program, schedule))
        }
        (Command::Generate, Operands::One(size)) => {
            Some(Work::Generate(number_within(size, 1, MOST_GENERATED)?))
        }
        (Command::Bench, Operands::One(size)) => {
            Some(Work::Bench(number_within(size, 1, MOST_GENERATED)?))
        }
        (Command::Help, Operands::Missing) => Some(Work::Help),
        _ => None,
    }
}
