//! Statements, as they are written.

ghost use Rattle.std.specs.Prelude.{◌≡◌};
ghost use Rattle.c_tree.specs.Plain.{stmt_place};
ghost use Rattle.c_tree.specs.Seen.{plain_stmt};

use crate::simple::{Assign, Call, Cond, Handles, Local, Nil};
use sqlite_items::{Boxed, Items};

/// Whether a loop stands around a statement in its function.
#[derive(Clone, Copy, Debug, PartialEq, Eq)]
pub enum Around {
    Loop,
    Nothing,
}

/// Statements in braces.
#[cycle(stmt)]
#[derive(Drop)]
pub struct Block {
    pub from: u32,
    pub stmts: Items<Stmt>,
}

/// The first part of a `for`.
#[derive(Drop)]
pub enum First {
    Local(Local),
    Assign(Assign),
    /// Nothing, with the place of the semicolon.
    Empty(u32),
}

/// Each at the place of its first token, where its parts do not tell it. What is large is boxed, so that a statement is
/// small.
#[cycle(stmt)]
#[derive(Drop)]
pub enum Stmt {
    Block(Block),
    Empty(u32),
    Local(Boxed<Local>),
    Assign(Boxed<Assign>),
    /// The condition, the statement behind it, and that behind `else`.
    If(u32, Boxed<Cond>, Boxed<Stmt>, Option<Boxed<Stmt>>),
    While(u32, Boxed<Cond>, Boxed<Stmt>),
    /// The first part, the condition, the last part and the body.
    For(u32, Boxed<First>, Option<Boxed<Cond>>, Option<Boxed<Assign>>, Boxed<Stmt>),
    Break(u32),
    Return(u32, Option<Nil>),
    Call(Boxed<Call>),
    /// The statements of an atomic block.
    Atomic(u32, Items<Stmt>),
    Handles(Boxed<Handles>),
}

impl Stmt {
    /// Where its first token stands.
    pub fn place(&self) -> u32
        ensures { result ≡ stmt_place (plain_stmt self.now) }
    {
        match self {
            Stmt::Block(block) => block.from,
            Stmt::Empty(from) => *from,
            Stmt::Local(local) => local.get().from,
            Stmt::Assign(assign) => assign.get().place(),
            Stmt::If(from, _, _, _) => *from,
            Stmt::While(from, _, _) => *from,
            Stmt::For(from, _, _, _, _) => *from,
            Stmt::Break(from) => *from,
            Stmt::Return(from, _) => *from,
            Stmt::Call(call) => call.get().place(),
            Stmt::Atomic(from, _) => *from,
            Stmt::Handles(handles) => handles.get().from,
        }
    }
}
