//! The places of a thread's locations.

ghost use Rattle.std.specs.Prelude.{◌≡◌, ◌++◌, ◌+◌, ◌-◌, ◌<◌, ◌≤◌, ◌^◌, replicate, IfOk, OnOk};
ghost use Rattle.thread_cfg.specs.inside.Sizes as specs;

use crate::sizes::{assignment_size, comparison_size};
use c_check::{Condition, Instruction, TestOperation};
use std::alloc::{AllocError, Global};

/// The place, so many times.
fn push_times(places: &mut Vec<u32>, place: u32, times: usize) -> Result<(), AllocError>
    ensures { OnOk result (places.new.items ≡ places.old.items ++ replicate times place) }
{
    'times: for _time in 0..times {
        places.push(place)?;
    }
    Ok(())
}

/// The places of an operation's own locations.
fn push_operation(places: &mut Vec<u32>, operation: &TestOperation) -> Result<(), AllocError>
    ensures { OnOk result (places.new.items ≡ places.old.items ++ specs.places_of operation.now) }
{
    match operation {
        TestOperation::Compare(comparison) => {
            push_times(places, comparison.from, comparison_size(comparison))
        }
        TestOperation::Not => Ok(()),
        TestOperation::And => Ok(()),
        TestOperation::Or => Ok(()),
    }
}

/// The places of a test.
fn push_tests(places: &mut Vec<u32>, tests: &[TestOperation]) -> Result<(), AllocError>
    ensures { OnOk result (places.new.items ≡ places.old.items ++ specs.test_places tests.now) }
{
    'tests: for operation in tests {
        push_operation(places, operation)?;
    }
    Ok(())
}

/// The places of what is tested or chosen.
fn push_condition(places: &mut Vec<u32>, condition: &Condition) -> Result<(), AllocError>
    ensures { OnOk result (places.new.items ≡ places.old.items ++ specs.condition_places condition.now) }
{
    match condition {
        Condition::Choice(from) => push_times(places, *from, 1),
        Condition::Test(_, tests) => push_tests(places, tests.as_slice()),
    }
}

/// The places of the instruction's own locations.
fn push_instruction(places: &mut Vec<u32>, instruction: &Instruction) -> Result<(), AllocError>
    ensures { OnOk result (places.new.items ≡ places.old.items ++ specs.instruction_places instruction.now) }
{
    match instruction {
        Instruction::Assign(a) => push_times(places, a.from, assignment_size(a)),
        Instruction::If(_, condition) => push_condition(places, condition),
        Instruction::Loop(_, condition) => push_condition(places, condition),
        Instruction::Assert(_, tests) => push_tests(places, tests.as_slice()),
        Instruction::Assume(_, tests) => push_tests(places, tests.as_slice()),
        Instruction::AssignAny(from, _) => push_times(places, *from, 1),
        Instruction::Break(from) => push_times(places, *from, 1),
        Instruction::Exit(from) => push_times(places, *from, 1),
        Instruction::Lock(from, _) => push_times(places, *from, 1),
        Instruction::Unlock(from, _) => push_times(places, *from, 1),
        Instruction::Atomic(from) => push_times(places, *from, 1),
        Instruction::Else => Ok(()),
        Instruction::EndIf => Ok(()),
        Instruction::Last => Ok(()),
        Instruction::EndLoop => Ok(()),
        Instruction::EndAtomic => Ok(()),
    }
}

/// How many atomic blocks are around what is behind the instruction.
fn deeper(depth: usize, instruction: &Instruction) -> usize
    requires { depth < 2 ^ 64 - 1 }
    ensures value { result ≡ specs.deeper depth instruction.now }
    ensures most { result ≤ depth + 1 }
{
    match instruction {
        Instruction::Atomic(_) => depth + 1,
        Instruction::EndAtomic => depth.saturating_sub(1),
        _ => depth,
    }
}

/// The places of the locations of code.
pub(crate) fn places_of_code(alloc: Global, code: &[Instruction]) -> Result<Vec<u32>, AllocError>
    ensures { IfOk result (λ places. places.items ≡ specs.places_from 0 code.now) }
{
    let mut places = Vec::new(alloc);
    let mut depth = 0;
    'code: for instruction in code {
        if depth == 0 {
            push_instruction(&mut places, instruction)?;
        }
        depth = deeper(depth, instruction);
    }
    Ok(places)
}
