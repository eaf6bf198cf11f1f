//! The tableau as code: a simplex over whole numbers that ends with a certificate that refutes a system of rows, with a rational
//! point of it, or gives up. The layers above learn that the answer is exactly that of the written definition, and that what it
//! gives holds of the system.
#![tactic(auto)]

mod given;
mod laws;
mod looking;
mod numbers;
mod pivot;
mod place;
mod point;
mod refuting;
mod round;
mod standing;
mod sum;
mod tableau;
mod tried;
mod variable;

pub use laws::{certificate_proves, more_pivots_change_nothing, point_is_a_point};
pub use tried::{Tried, try_decide, try_decide_named};

#[cfg(test)]
mod tests;
