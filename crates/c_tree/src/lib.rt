//! The tree of a C text of the profile, or the first place where no text of the profile goes on so.
#![tactic(auto)]

mod expr;
mod heads;
mod item;
mod items;
mod laws;
mod levels;
mod lists;
mod magnitude;
mod more;
mod operand;
mod parts;
mod reader;
mod simple;
mod skips;
mod statements;
mod stmt;
mod term;
mod tokens;
mod views;

pub use expr::{
    Conjunction, Equality, EqualityKind, EqualityMark, Expr, Name, Product, Relation, RelationKind,
    RelationMark, Sum, SumKind, SumMark, Unary, UnaryKind,
};
pub use item::{
    Body, Errfn, Globals, Gname, Item, Locks, Mainfn, Mname, Proto, Start, Threadfn, Tree, Typed,
    Untyped,
};
pub use laws::{
    expressions_are_unique, leaves_are_tokens, places_are_those_of_first_tokens,
    trees_are_read_exactly, trees_follow_their_texts,
};
pub use magnitude::Magnitude;
pub use reader::{parse, parse_tokens};
pub use simple::{
    Assign, Call, Cond, Handles, Itype, Lname, Local, Nil, Nondet, Qual, QualKind, Right,
};
pub use stmt::{Around, Block, First, Stmt};
pub use views::{plain_expressions_go_by_form, plain_statements_go_by_form};

#[cfg(test)]
mod tests;
