//! One value, one history, one turn: threads take turns at a value whose history only grows. The layer above learns, of each seat
//! that it holds, how much of that history its owner has seen, and that the value it is lent begins with all of that.
#![tactic(auto)]

mod held;
mod rule;
mod seat;
mod turn;
mod view;

pub use held::Held;
pub use seat::Seat;
pub use turn::Turn;

#[cfg(test)]
mod tests;
