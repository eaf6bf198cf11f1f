//! Expressions, as a stack machine computes them: operands in front of their operation.

use crate::meaning::Variable;

/// One step of a stack machine over integers.
#[derive(Clone, Copy, Debug, PartialEq, Eq)]
pub enum Operation {
    Number(i128),
    Value(Variable),
    /// Of what was computed last.
    Negate,
    /// Of the two that were computed last, the earlier one on the left.
    Add,
    Subtract,
    Multiply,
}

/// The mark of a comparison.
#[derive(Clone, Copy, Debug, PartialEq, Eq)]
pub enum Mark {
    Equal,
    Unequal,
    Less,
    AtMost,
    Greater,
    AtLeast,
}
