//! Whether rows have a rational point, and whether they entail an atom, each with its evidence. The layers above learn that the
//! evidence holds, and that the solver leaves rows undecided exactly where one definition says; which certificate or point
//! they are given, they do not learn.
#![tactic(auto)]

mod denial;
mod solver;

pub use denial::{Entailed, entails};
pub use solver::decide;

#[cfg(test)]
mod tests;
