//! The elimination as code: it takes the columns of a system of rows one after another out of its rows, and ends with a
//! certificate that refutes the system, with a rational point of it, or where a number does not fit or rows are too many. The
//! layers above learn that the answer is exactly that of the written definition.
#![tactic(auto)]

mod bounds;
mod combination;
mod constant_test;
mod elimination;
mod factors;
mod follows;
mod fraction;
mod given;
mod kept;
mod line;
mod pair_stage;
mod pairing;
mod point;
mod rational_point;
mod refuting;
mod stage;
mod substitution;
mod work;

pub use elimination::{decide, decide_named};

#[cfg(test)]
mod tests;
