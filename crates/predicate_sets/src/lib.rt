//! The predicates of each home: a list of distinct atoms, of which a number is the position from 1. The layers above learn that
//! a list only grows at its end or is put back whole, and that one that was handed out never changes.
#![tactic(auto)]

mod home_set;
mod sets;

pub use home_set::{HomeSet, is_same};
pub use sets::{AddStop, Added, Sets};

#[cfg(test)]
mod tests;
