//! The words of what happens in a run. The layers above learn that what is written is exactly the text of what a stored value stands for.
#![tactic(auto)]

mod reasons;

pub use reasons::{push_instance, push_reason};

#[cfg(test)]
mod tests;
