//! A whole text, as it is written.

ghost use Rattle.std.specs.Prelude.{◌≡◌};
ghost use Rattle.thr_base.specs.Number.{Fits};
ghost use Rattle.c_tree.specs.Seen.{start_value};

use crate::expr::Name;
use crate::magnitude::Magnitude;
use crate::simple::{Handles, Itype, Qual};
use crate::stmt::Block;
use sqlite_items::Items;

/// What a global variable starts with, at the place of its sign or number.
#[derive(Clone, Copy, Debug, PartialEq, Eq)]
pub struct Start {
    pub from: u32,
    pub is_negative: bool,
    /// Without its sign.
    pub value: Magnitude,
}

impl Start {
    /// The number that it is.
    pub fn number(&self) -> i128
        ensures number { result ≡ start_value self.now }
        ensures fits { Fits result }
    {
        if self.is_negative {
            self.value.negative()
        } else {
            self.value.number()
        }
    }
}

/// A global variable, perhaps with what it starts with.
#[derive(Drop)]
pub struct Gname {
    pub name: Name,
    pub start: Option<Start>,
}

#[derive(Drop)]
pub struct Globals {
    pub first: Gname,
    /// Each with the place of its comma.
    pub more: Items<(u32, Gname)>,
}

/// A lock, perhaps with its initializer.
#[derive(Drop)]
pub struct Mname {
    pub name: Name,
    pub is_started: bool,
}

/// `pthread_mutex_t` with locks.
#[derive(Drop)]
pub struct Locks {
    pub from: u32,
    pub first: Mname,
    /// Each with the place of its comma.
    pub more: Items<(u32, Mname)>,
}

/// A prototype of a function of the profile, at the place of its name.
#[derive(Clone, Copy, Debug, PartialEq, Eq)]
pub struct Proto {
    pub from: u32,
}

/// A function `reach_error`, at the place of its name.
#[derive(Clone, Copy, Debug, PartialEq, Eq)]
pub struct Errfn {
    pub from: u32,
}

/// At the place of its word `main`.
#[derive(Drop)]
pub struct Mainfn {
    pub from: u32,
    pub body: Block,
}

/// A thread function, or its prototype.
#[derive(Drop)]
pub struct Threadfn {
    pub name: Name,
    pub body: Option<Block>,
}

/// What stands behind a type of numbers.
#[derive(Drop)]
pub enum Typed {
    Globals(Globals),
    Main(Mainfn),
    Proto(Proto),
}

/// What stands behind `void`.
#[derive(Drop)]
pub enum Untyped {
    Thread(Threadfn),
    Proto(Proto),
    Errfn(Errfn),
}

/// What stands behind the words in front of a type.
#[derive(Drop)]
pub enum Body {
    Typed(Itype, Typed),
    /// With the place of `void`.
    Void(u32, Untyped),
    Locks(Locks),
    Handles(Handles),
}

#[derive(Drop)]
pub struct Item {
    pub from: u32,
    pub quals: Items<Qual>,
    pub body: Body,
}

/// A text of the profile.
#[derive(Drop)]
pub struct Tree {
    pub items: Items<Item>,
    /// The length of the text.
    pub end: u32,
}
