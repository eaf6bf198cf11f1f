ghost use Rattle.std.specs.Prelude.{◌≡◌, ◌≤◌, List, length, IfOk};
ghost use Rattle.thr_base.specs.Limits.{text_limit};
ghost use Rattle.thr_base.specs.Refusals.{MatchLineStop};
ghost use Rattle.horn_rules.specs.Predicate.{Predicate};
ghost use Rattle.annotation_form.specs.Predicates.{IsPredicatesText, IsReadAs, IsTextOfPredicates, lists_of};
ghost use Rattle.annotation_form.specs.BadLine.{IsBadLine};
ghost use Rattle.annotation_form.specs.inside.Reading.{IsLinesAnswer, IsReadOnly};

use crate::adding::take_line;
use crate::line::{is_same, split_at};
use horn_rules::home_count;
use predicate_sets::Sets;
use std::alloc::{AllocError, Global};
use thr_base::LineStop;
use transition_formula::Program;

/// What a text of lines is read as.
#[derive(Drop)]
enum Lines {
    Sets(Sets),
    /// The first line that cannot stand there.
    Bad(u32),
}

fn read_lines(alloc: Global, program: &Program, text: &[u8]) -> Result<Lines, AllocError>
    requires { length text.now ≤ text_limit }
    ensures answer { IfOk result (λ lines. IsLinesAnswer program.now text.now lines) }
    ensures only { IfOk result (λ lines. IsReadOnly program.now text.now lines) }
{
    let _ = program.threads(); // its contract says that `program` is one
    let mut sets = Sets::new(alloc, home_count(program))?;
    let mut left = text;
    let mut number = 1;
    while let Some((line, rest)) = split_at(left, b'\n') {
        if is_same(line, b"end") {
            if rest.is_empty() {
                return Ok(Lines::Sets(sets));
            }
            return Ok(Lines::Bad(number + 1));
        }
        if !take_line(alloc, program, &mut sets, line)? {
            return Ok(Lines::Bad(number));
        }
        left = rest;
        number += 1;
    }
    Ok(Lines::Bad(number))
}

/// The predicates of a text: for each home of the program its atoms, in the order of their lines.
pub fn read_predicates(alloc: Global, program: &Program, text: &[u8]) -> Result<Sets, LineStop>
    requires { length text.now ≤ text_limit }
    ensures answer { MatchLineStop result (IsReadAs program.now text.now) (IsBadLine (IsTextOfPredicates program.now) text.now) }
    // A text is read as the sets of its predicates, whatever predicates it is the text of.
    ensures only { (predicates : List Predicate) → IsPredicatesText program.now predicates text.now → IfOk result (λ sets. sets ≡ lists_of program.now predicates) }
{
    match read_lines(alloc, program, text) {
        Ok(Lines::Sets(sets)) => Ok(sets),
        Ok(Lines::Bad(line)) => Err(LineStop::BadLine(line)),
        Err(AllocError) => Err(LineStop::Memory),
    }
}
