//! Expressions, as they are written.

ghost use Rattle.std.specs.Prelude.{◌≡◌};
ghost use Rattle.c_tree.specs.Plain.{expr_place};
ghost use Rattle.c_tree.specs.Seen.{plain_expr, plain_unary};

use crate::magnitude::Magnitude;
use sqlite_items::{Boxed, Items};

/// A name, where it stands.
#[derive(Drop)]
pub struct Name {
    pub from: u32,
    pub text: Items<u8>,
}

/// `||` between conjunctions.
#[cycle(expr)]
#[derive(Drop)]
pub struct Expr {
    pub from: u32,
    pub first: Conjunction,
    /// Each with the place of its mark.
    pub more: Items<(u32, Conjunction)>,
}

/// `&&` between equalities.
#[cycle(expr)]
#[derive(Drop)]
pub struct Conjunction {
    pub from: u32,
    pub first: Equality,
    /// Each with the place of its mark.
    pub more: Items<(u32, Equality)>,
}

#[derive(Clone, Copy, Debug, PartialEq, Eq)]
pub enum EqualityKind {
    Equal,
    Unequal,
}

#[derive(Clone, Copy, Debug, PartialEq, Eq)]
pub struct EqualityMark {
    pub from: u32,
    pub kind: EqualityKind,
}

/// `==` and `!=` between relations.
#[cycle(expr)]
#[derive(Drop)]
pub struct Equality {
    pub from: u32,
    pub first: Relation,
    pub more: Items<(EqualityMark, Relation)>,
}

#[derive(Clone, Copy, Debug, PartialEq, Eq)]
pub enum RelationKind {
    Less,
    AtMost,
    Greater,
    AtLeast,
}

#[derive(Clone, Copy, Debug, PartialEq, Eq)]
pub struct RelationMark {
    pub from: u32,
    pub kind: RelationKind,
}

/// `<`, `<=`, `>` and `>=` between sums.
#[cycle(expr)]
#[derive(Drop)]
pub struct Relation {
    pub from: u32,
    pub first: Sum,
    pub more: Items<(RelationMark, Sum)>,
}

#[derive(Clone, Copy, Debug, PartialEq, Eq)]
pub enum SumKind {
    Plus,
    Minus,
}

#[derive(Clone, Copy, Debug, PartialEq, Eq)]
pub struct SumMark {
    pub from: u32,
    pub kind: SumKind,
}

/// `+` and `-` between products.
#[cycle(expr)]
#[derive(Drop)]
pub struct Sum {
    pub from: u32,
    pub first: Product,
    pub more: Items<(SumMark, Product)>,
}

/// `*` between unary expressions.
#[cycle(expr)]
#[derive(Drop)]
pub struct Product {
    pub from: u32,
    pub first: Unary,
    /// Each with the place of its mark.
    pub more: Items<(u32, Unary)>,
}

#[derive(Clone, Copy, Debug, PartialEq, Eq)]
pub enum UnaryKind {
    Minus,
    Plus,
    Not,
}

/// An operand, at the place of its first token.
#[cycle(expr)]
#[derive(Drop)]
pub enum Unary {
    Operator(u32, UnaryKind, Boxed<Unary>),
    Paren(u32, Boxed<Expr>),
    Number(u32, Magnitude),
    Name(Name),
}

impl Unary {
    /// Where its first token stands.
    pub fn place(&self) -> u32
        ensures { result ≡ expr_place (plain_unary self.now) }
    {
        match self {
            Unary::Operator(from, _, _) => *from,
            Unary::Paren(from, _) => *from,
            Unary::Number(from, _) => *from,
            Unary::Name(name) => name.from,
        }
    }
}

impl Expr {
    /// Where its first token stands.
    pub fn place(&self) -> u32
        ensures { result ≡ expr_place (plain_expr self.now) }
    {
        self.first.first.first.first.first.first.place()
    }
}
