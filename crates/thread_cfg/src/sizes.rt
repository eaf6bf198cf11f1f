//! How many locations instructions have, and where their loops begin.

ghost use Rattle.std.specs.Prelude.{◌≡◌, ◌+◌, ◌-◌, ◌<◌, ◌≤◌, ◌^◌, suc, ℕ, length, IfOk, MatchOption};
ghost use Rattle.thr_base.specs.Limits.{most_locations};
ghost use Rattle.c_check.specs.Items.{written};
ghost use Rattle.thread_cfg.specs.inside.Sizes as specs;
ghost use Rattle.thread_cfg.specs.inside.Counter.{IsCounted, IsGrown, counted_of};

use c_check::{Assignment, Comparison, Condition, Instruction, Operation, TestOperation, Variable};
use std::alloc::{AllocError, Global};
use thr_base::{Loc, MOST_LOCATIONS};

/// Whether the operation reads what all threads share.
fn is_shared(operation: Operation) -> bool
    ensures { result ≡ specs.is_shared operation }
{
    match operation {
        Operation::Value(Variable::Shared(_)) => true,
        _ => false,
    }
}

/// How many variables that all threads share operations name.
pub(crate) fn shared_operations(operations: &[Operation]) -> usize
    ensures value { result ≡ specs.shared_operations operations.now }
    ensures small { result < 2 ^ 63 }
{
    let mut count = 0;
    for operation in operations {
        if is_shared(*operation) {
            count += 1;
        }
    }
    count
}

/// With as many reads in front, where the accesses are more than one.
fn locations(accesses: usize, reads: usize) -> usize
    requires { reads < 2 ^ 64 - 1 }
    ensures { result ≡ specs.locations accesses reads }
{
    if accesses < 2 { 1 } else { reads + 1 }
}

/// How many accesses it makes, with so many in what is computed.
pub(crate) fn accesses_of(variable: Variable, reads: usize) -> usize
    requires { reads < 2 ^ 63 }
    ensures { result ≡ written variable reads }
{
    match variable {
        Variable::Shared(_) => reads + 1,
        Variable::Own(_) => reads,
    }
}

/// How many locations an assignment has.
pub(crate) fn assignment_size(assignment: &Assignment) -> usize
    ensures { result ≡ specs.assignment_size assignment.now }
{
    let reads = shared_operations(assignment.value.as_slice());
    locations(accesses_of(assignment.variable, reads), reads)
}

/// How many locations a comparison has.
pub(crate) fn comparison_size(comparison: &Comparison) -> usize
    ensures { result ≡ specs.comparison_size comparison.now }
{
    let left = shared_operations(comparison.left.as_slice());
    let right = shared_operations(comparison.right.as_slice());
    locations(left + right, left + right)
}

/// How many locations an operation of a test has.
fn operation_size(operation: &TestOperation) -> usize
    ensures { result ≡ specs.operation_size operation.now }
{
    match operation {
        TestOperation::Compare(comparison) => comparison_size(comparison),
        TestOperation::Not => 0,
        TestOperation::And => 0,
        TestOperation::Or => 0,
    }
}

/// The location behind so many, unless there are too many.
fn behind(at: u32, size: usize) -> Option<u32>
    requires { at < most_locations }
    ensures { IsGrown result (at + size) }
{
    let room = MOST_LOCATIONS - 1 - at;
    if size <= room as usize {
        Some(at + size as u32)
    } else {
        None
    }
}

/// The location behind a test, unless there are too many.
fn behind_tests(at: u32, tests: &[TestOperation]) -> Option<u32>
    requires { at < most_locations }
    ensures { IsGrown result (at + specs.tests_size tests.now) }
{
    let mut end = at;
    'tests: for operation in tests {
        match behind(end, operation_size(operation)) {
            Some(next) => end = next,
            None => return None,
        }
    }
    Some(end)
}

/// The location behind what is tested or chosen, unless there are too many.
fn behind_condition(at: u32, condition: &Condition) -> Option<u32>
    requires { at < most_locations }
    ensures { IsGrown result (at + specs.stored_condition_size condition.now) }
{
    match condition {
        Condition::Choice(_) => behind(at, 1),
        Condition::Test(_, tests) => behind_tests(at, tests.as_slice()),
    }
}

/// The location behind an instruction, unless there are too many.
pub(crate) fn behind_instruction(at: u32, instruction: &Instruction) -> Option<u32>
    requires { at < most_locations }
    ensures { IsGrown result (at + specs.instruction_size instruction.now) }
{
    match instruction {
        Instruction::Assign(assignment) => behind(at, assignment_size(assignment)),
        Instruction::If(_, condition) => behind_condition(at, condition),
        Instruction::Loop(_, condition) => behind_condition(at, condition),
        Instruction::Assert(_, tests) => behind_tests(at, tests.as_slice()),
        Instruction::Assume(_, tests) => behind_tests(at, tests.as_slice()),
        Instruction::Else => Some(at),
        Instruction::EndIf => Some(at),
        Instruction::Last => Some(at),
        Instruction::EndLoop => Some(at),
        Instruction::EndAtomic => Some(at),
        Instruction::AssignAny(_, _) => behind(at, 1),
        Instruction::Break(_) => behind(at, 1),
        Instruction::Exit(_) => behind(at, 1),
        Instruction::Lock(_, _) => behind(at, 1),
        Instruction::Unlock(_, _) => behind(at, 1),
        Instruction::Atomic(_) => behind(at, 1),
    }
}
