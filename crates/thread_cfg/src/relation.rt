//! How two numbers are related on an edge.

/// What an edge asks of two numbers `a` and `b`. Each is one row.
#[derive(Clone, Copy, Debug, PartialEq, Eq)]
pub(crate) enum Relation {
    /// `a = b`
    Equal,
    /// `a <= b - 1`
    Less,
    /// `a >= b + 1`
    Greater,
    /// `a <= b`
    AtMost,
    /// `a >= b`
    AtLeast,
}
