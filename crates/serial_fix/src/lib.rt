//! The least set of facts under posts, found on one thread. The layers above learn that the facts that come out are exactly those
//! that can be derived from nothing and cover all runs, that the solver leaves an instance over them, or that there are more facts
//! or instances than the limits say.
#![tactic(auto)]

mod fixpoint;
mod found;
mod run;
mod step;

pub use fixpoint::{LeastAnswer, least};

#[cfg(test)]
mod tests;
