use std::collections::LinkedList;

/// What a seat at the table knows. No value of it is made.
pub struct View<E> {
    /// The history that its owner has seen.
    pub seen: LinkedList<E>,
    /// The shorter of the histories that it and a seat which it took in had seen.
    pub told: LinkedList<E>,
    pub has_turn: bool,
}
