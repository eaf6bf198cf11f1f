//! The lines of expressions by their operations: a stack machine over lines.

ghost use Rattle.std.specs.Prelude.{◌≡◌, ◌<◌, ◌^◌, ◌∷◌, [], length, option_map, IfOk, MatchOption};
ghost use Rattle.std.specs.List.{AllByRecursion};
ghost use Rattle.transition_formula.specs.Program.{IsFormOver};
ghost use Rattle.transition_formula.specs.Stored.{form_of};
ghost use Rattle.thread_cfg.specs.inside.Machine.{OperationWithin, computed, on_top, relabelled, stack_after, stack_of};
ghost use Rattle.thread_cfg.specs.inside.Meant.{frame_of};

use crate::frame::Frame;
use crate::temporaries::{next_temporary, over_temporary};
use c_check::Operation;
use std::alloc::{AllocError, Global};
use transition_formula::Line;

/// Takes off the two lines that were computed last, the earlier one on the left.
fn last_two(stack: &mut Vec<Line>) -> Option<(Line, Line)>
    ensures { MatchOption result (length (stack_of stack.old.items) < 2) (λ both. stack_of stack.old.items ≡ form_of both.1 ∷ (form_of both.0 ∷ stack_of stack.new.items)) }
{
    let other = stack.pop()?;
    let one = stack.pop()?;
    Some((one, other))
}

/// What an operation makes of the lines that it takes off, where it fits.
fn line_after(
    alloc: Global,
    columns: u32,
    frame: &Frame,
    operation: Operation,
    stack: &mut Vec<Line>,
) -> Result<Option<Line>, AllocError>
    requires within { OperationWithin columns (frame_of frame.now) operation }
    requires over { AllByRecursion (IsFormOver columns) (stack_of stack.old.items) }
    ensures { IfOk result (λ made. on_top (stack_of stack.new.items) (option_map form_of made) ≡ stack_after columns (frame_of frame.now) (stack_of stack.old.items) operation) }
{
    match operation {
        Operation::Number(number) => Line::constant_if_fits(alloc, columns, number),
        Operation::Value(variable) => {
            let line = Line::column(alloc, columns, frame.column(variable))?;
            Ok(Some(line))
        }
        Operation::Negate => match stack.pop() {
            Some(line) => line.times(alloc, -1),
            None => Ok(None),
        },
        Operation::Add => match last_two(stack) {
            Some((one, other)) => one.plus(alloc, &other),
            None => Ok(None),
        },
        Operation::Subtract => match last_two(stack) {
            Some((one, other)) => one.minus(alloc, &other),
            None => Ok(None),
        },
        Operation::Multiply => match last_two(stack) {
            Some((one, other)) => one.product(alloc, &other),
            None => Ok(None),
        },
    }
}

/// The line that operations compute, where each product and sum fits; with temporaries from this number on in place of what all
/// threads share, where one is given.
pub(crate) fn line_of_operations(
    alloc: Global,
    columns: u32,
    frame: &Frame,
    operations: &[Operation],
    first_temporary: Option<usize>,
) -> Result<Option<Line>, AllocError>
    requires { AllByRecursion (OperationWithin columns (frame_of frame.now)) (relabelled first_temporary operations.now) }
    ensures { IfOk result (λ made. option_map form_of made ≡ computed columns (frame_of frame.now) (relabelled first_temporary operations.now)) }
{
    let mut stack = Vec::new(alloc);
    let mut next = first_temporary;
    'operations: for operation in operations {
        let here = over_temporary(next, *operation);
        next = next_temporary(next, *operation);
        let made = line_after(alloc, columns, frame, here, &mut stack)?;
        match made {
            Some(line) => stack.push(line)?,
            None => return Ok(None),
        }
    }
    Ok(stack.pop())
}
