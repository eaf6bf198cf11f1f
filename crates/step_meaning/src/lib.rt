//! What a program means, as code: whether a state is one that it starts in, and what an edge does to a state with given inputs. The
//! layers above learn that a next state is exactly a step of the program, that an edge which blocks has none, and that of all that
//! stops a step the first in the stated order is told.
#![tactic(auto)]

mod laws;
mod look;
mod starts;
mod step_answer;
mod steps;
mod write;

pub use laws::outcomes_are_exact;
pub use starts::initial;
pub use step_answer::StepAnswer;
pub use steps::step;

#[cfg(test)]
mod tests;
