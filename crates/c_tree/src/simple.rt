//! What statements are made of, as it is written.

ghost use Rattle.std.specs.Prelude.{◌≡◌};
ghost use Rattle.c_tree.specs.Plain.{assign_place, call_place};
ghost use Rattle.c_tree.specs.Seen.{plain_assign, plain_call};

use crate::expr::{Expr, Name};
use sqlite_items::Items;

/// `__VERIFIER_nondet_int()`
#[derive(Clone, Copy, Debug, PartialEq, Eq)]
pub struct Nondet {
    pub from: u32,
}

/// What a variable is set to.
#[derive(Drop)]
pub enum Right {
    Nondet(Nondet),
    Expr(Expr),
}

/// What is tested, or a choice.
#[derive(Drop)]
pub enum Cond {
    Nondet(Nondet),
    Expr(Expr),
}

/// `NULL` or `0`.
#[derive(Clone, Copy, Debug, PartialEq, Eq)]
pub enum Nil {
    Null(u32),
    Zero(u32),
}

#[derive(Drop)]
pub enum Assign {
    /// `x = e`
    Set(Name, Right),
    /// `x += e`
    Add(Name, Expr),
    /// `x -= e`
    Subtract(Name, Expr),
    /// `x++`
    Increment(Name),
    /// `x--`
    Decrement(Name),
    /// `++x`, with the place of its mark
    IncrementFirst(u32, Name),
    /// `--x`, with the place of its mark
    DecrementFirst(u32, Name),
}

/// Each at the place of its word.
#[derive(Drop)]
pub enum Call {
    Assert(u32, Expr),
    Assume(u32, Expr),
    ReachError(u32),
    Abort(u32),
    Exit(u32, Nil),
    Lock(u32, Name),
    Unlock(u32, Name),
    Destroy(u32, Name),
    Init(u32, Name, Nil),
    /// The handle, its attributes, the function and its argument.
    Create(u32, Name, Nil, Name, Nil),
    Join(u32, Name, Nil),
}

#[derive(Clone, Copy, Debug, PartialEq, Eq)]
pub enum QualKind {
    Static,
    Volatile,
    Extern,
}

#[derive(Clone, Copy, Debug, PartialEq, Eq)]
pub struct Qual {
    pub from: u32,
    pub kind: QualKind,
}

/// Each at the place of its first word.
#[derive(Clone, Copy, Debug, PartialEq, Eq)]
pub enum Itype {
    Int(u32),
    Long(u32),
    LongInt(u32),
}

/// A variable of a function, perhaps with what it is set to.
#[derive(Drop)]
pub struct Lname {
    pub name: Name,
    pub start: Option<Right>,
}

#[derive(Drop)]
pub struct Local {
    pub from: u32,
    pub quals: Items<Qual>,
    pub itype: Itype,
    pub first: Lname,
    /// Each with the place of its comma.
    pub more: Items<(u32, Lname)>,
}

/// `pthread_t` with names.
#[derive(Drop)]
pub struct Handles {
    pub from: u32,
    pub first: Name,
    /// Each with the place of its comma.
    pub more: Items<(u32, Name)>,
}

impl Assign {
    /// Where its first token stands.
    pub fn place(&self) -> u32
        ensures { result ≡ assign_place (plain_assign self.now) }
    {
        match self {
            Assign::Set(x, _) => x.from,
            Assign::Add(x, _) => x.from,
            Assign::Subtract(x, _) => x.from,
            Assign::Increment(x) => x.from,
            Assign::Decrement(x) => x.from,
            Assign::IncrementFirst(from, _) => *from,
            Assign::DecrementFirst(from, _) => *from,
        }
    }
}

impl Call {
    /// Where its word stands.
    pub fn place(&self) -> u32
        ensures { result ≡ call_place (plain_call self.now) }
    {
        match self {
            Call::Assert(from, _) => *from,
            Call::Assume(from, _) => *from,
            Call::ReachError(from) => *from,
            Call::Abort(from) => *from,
            Call::Exit(from, _) => *from,
            Call::Lock(from, _) => *from,
            Call::Unlock(from, _) => *from,
            Call::Destroy(from, _) => *from,
            Call::Init(from, _, _) => *from,
            Call::Create(from, _, _, _, _) => *from,
            Call::Join(from, _, _) => *from,
        }
    }
}
