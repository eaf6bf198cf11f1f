//! What names stand for.

/// A variable of integers.
#[derive(Clone, Copy, Debug, PartialEq, Eq)]
pub enum Variable {
    /// A variable that all threads share, by its number among these, from 0, which is its column.
    Shared(usize),
    /// A local or a temporary of a thread, by its number among these, from 0: locals in the order of the text, then temporaries.
    Own(usize),
}

/// What a name may stand for.
#[derive(Clone, Copy, Debug, PartialEq, Eq)]
pub enum Meaning {
    Integer(Variable),
    /// A lock, by its number among the locks, from 0.
    Lock(usize),
    Handle,
    /// A thread function, by its number among those that have a body, from 0.
    Function(usize),
}
