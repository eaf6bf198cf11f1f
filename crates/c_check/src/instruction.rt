//! What a thread does, in the order of its text: structured code, in which what a statement holds stands between its two ends.

use crate::meaning::Variable;
use crate::operation::Operation;
use crate::test::{Condition, TestOperation};
use sqlite_items::Items;

/// A variable is set to what is computed.
#[derive(Drop)]
pub struct Assignment {
    /// The statement's first token.
    pub from: u32,
    /// The first token of what is computed; for `+=`, `-=`, `++` and `--` the variable's name.
    pub at: u32,
    pub variable: Variable,
    pub value: Items<Operation>,
}

/// Each statement at the place of its first token.
#[derive(Drop)]
pub enum Instruction {
    Assign(Assignment),
    /// A variable is set to any integer.
    AssignAny(u32, Variable),
    If(u32, Condition),
    Else,
    EndIf,
    Loop(u32, Condition),
    /// The body of a loop ends, and what is done behind it each time begins.
    Last,
    EndLoop,
    Break(u32),
    /// The thread ends.
    Exit(u32),
    /// With the lock's number among the locks: its column stands so many behind those of all variables.
    Lock(u32, usize),
    Unlock(u32, usize),
    Assert(u32, Items<TestOperation>),
    Assume(u32, Items<TestOperation>),
    Atomic(u32),
    EndAtomic,
}
