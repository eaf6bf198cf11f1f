//! Conditions: trees of comparisons, operands in front of their operation.

use crate::operation::{Mark, Operation};
use sqlite_items::Items;

/// A comparison, at the place of its first token.
#[derive(Drop)]
pub struct Comparison {
    pub from: u32,
    pub mark: Mark,
    pub left: Items<Operation>,
    pub right: Items<Operation>,
}

/// A comparison, or what is made of the one or two tests that stand in front of it, the earlier one on the left.
#[derive(Drop)]
pub enum TestOperation {
    Compare(Comparison),
    Not,
    And,
    Or,
}

/// What is tested, at the place of its first token.
#[derive(Drop)]
pub enum Condition {
    /// Either side may be gone on with.
    Choice(u32),
    Test(u32, Items<TestOperation>),
}
