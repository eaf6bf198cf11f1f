//! What a program does, as `check` finds it.

use crate::instruction::Instruction;
use sqlite_items::Items;
use thr_base::ThreadNo;

#[derive(Clone, Copy, Debug, PartialEq, Eq)]
pub enum ColumnKind {
    /// A variable that all threads share.
    Variable,
    Lock,
    Local,
    Temporary,
    Counter,
}

/// A number that a program's state has.
#[derive(Drop)]
pub struct Column {
    pub kind: ColumnKind,
    pub text: Items<u8>,
    /// None for what all threads share.
    pub owner: Option<ThreadNo>,
    /// None where it may be any integer.
    pub start: Option<i128>,
}

/// A thread function that has a body.
#[derive(Drop)]
pub struct Function {
    /// Its name in its definition.
    pub from: u32,
    pub locals: usize,
    pub temporaries: usize,
    pub body: Items<Instruction>,
}

/// A thread that `main` creates.
#[derive(Clone, Copy, Debug, PartialEq, Eq)]
pub struct Thread {
    /// The number of its function, from 0.
    pub function: usize,
    /// The column of its first local or temporary, or of what comes next where it has none. The others follow it.
    pub first: usize,
}

/// A program with every name resolved. A function that is created twice has its columns twice; what it does is stored once.
#[derive(Drop)]
pub struct Plan {
    /// Variables, locks, for each thread its locals and its temporaries, and a counter for each thread.
    pub columns: Items<Column>,
    /// In the order of the text.
    pub functions: Items<Function>,
    /// In the order of their creation.
    pub threads: Items<Thread>,
}
