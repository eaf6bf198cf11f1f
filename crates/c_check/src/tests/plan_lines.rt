//! Plans as texts: a line for each column, thread, function and instruction.

use super::*;
use std::str::from_utf8;

fn push_column(out: &mut String, column: &Column) -> Result<(), Fail> {
    let kind = column.kind;
    let text = from_utf8(column.text.as_slice())?;
    let owner = column.owner;
    let start = column.start;
    writeln!(out, "{kind:?} {text} {owner:?} {start:?}")?;
    Ok(())
}

fn push_operations(out: &mut String, operations: &[Operation]) -> Result<(), Fail> {
    for operation in operations {
        write!(out, " {operation:?}")?;
    }
    Ok(())
}

fn push_comparison(out: &mut String, comparison: &Comparison) -> Result<(), Fail> {
    let from = comparison.from;
    let mark = comparison.mark;
    write!(out, " ({from} {mark:?}:")?;
    push_operations(out, comparison.left.as_slice())?;
    out.push_str(",")?;
    push_operations(out, comparison.right.as_slice())?;
    out.push_str(")")?;
    Ok(())
}

fn push_tests(out: &mut String, tests: &[TestOperation]) -> Result<(), Fail> {
    for test in tests {
        match test {
            TestOperation::Compare(comparison) => push_comparison(out, comparison)?,
            TestOperation::Not => out.push_str(" Not")?,
            TestOperation::And => out.push_str(" And")?,
            TestOperation::Or => out.push_str(" Or")?,
        }
    }
    Ok(())
}

fn push_condition(out: &mut String, condition: &Condition) -> Result<(), Fail> {
    match condition {
        Condition::Choice(from) => write!(out, " {from} Choice")?,
        Condition::Test(from, tests) => {
            write!(out, " {from}")?;
            push_tests(out, tests.as_slice())?;
        }
    }
    Ok(())
}

fn push_assignment(out: &mut String, assignment: &Assignment) -> Result<(), Fail> {
    let from = assignment.from;
    let at = assignment.at;
    let variable = assignment.variable;
    write!(out, "{from} Assign {variable:?} {at}")?;
    push_operations(out, assignment.value.as_slice())
}

fn push_instruction(out: &mut String, instruction: &Instruction) -> Result<(), Fail> {
    match instruction {
        Instruction::Assign(assignment) => push_assignment(out, assignment)?,
        Instruction::AssignAny(from, variable) => write!(out, "{from} AssignAny {variable:?}")?,
        Instruction::If(from, condition) => {
            write!(out, "{from} If")?;
            push_condition(out, condition)?;
        }
        Instruction::Else => out.push_str("Else")?,
        Instruction::EndIf => out.push_str("EndIf")?,
        Instruction::Loop(from, condition) => {
            write!(out, "{from} Loop")?;
            push_condition(out, condition)?;
        }
        Instruction::Last => out.push_str("Last")?,
        Instruction::EndLoop => out.push_str("EndLoop")?,
        Instruction::Break(from) => write!(out, "{from} Break")?,
        Instruction::Exit(from) => write!(out, "{from} Exit")?,
        Instruction::Lock(from, lock) => write!(out, "{from} Lock {lock}")?,
        Instruction::Unlock(from, lock) => write!(out, "{from} Unlock {lock}")?,
        Instruction::Assert(from, tests) => {
            write!(out, "{from} Assert")?;
            push_tests(out, tests.as_slice())?;
        }
        Instruction::Assume(from, tests) => {
            write!(out, "{from} Assume")?;
            push_tests(out, tests.as_slice())?;
        }
        Instruction::Atomic(from) => write!(out, "{from} Atomic")?,
        Instruction::EndAtomic => out.push_str("EndAtomic")?,
    }
    out.push_str("\n")?;
    Ok(())
}

fn push_function(out: &mut String, function: &Function) -> Result<(), Fail> {
    let from = function.from;
    let locals = function.locals;
    let temporaries = function.temporaries;
    writeln!(out, "{from} function {locals} {temporaries}")?;
    for instruction in function.body.as_slice() {
        push_instruction(out, instruction)?;
    }
    Ok(())
}

pub fn lines_of(alloc: Global, plan: &Plan) -> Result<String, Fail> {
    let mut out = String::new(alloc);
    for column in plan.columns.as_slice() {
        push_column(&mut out, column)?;
    }
    for thread in plan.threads.as_slice() {
        let Thread { function, first } = *thread;
        writeln!(out, "thread {function} {first}")?;
    }
    for function in plan.functions.as_slice() {
        push_function(&mut out, function)?;
    }
    Ok(out)
}
