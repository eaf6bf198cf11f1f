//! The post of a job: the fact with exactly the predicates that its instance's rows entail, or nothing where these are refuted. The
//! layers above learn that it is exactly this, and with which kind the solver left where a job is left undecided.
#![tactic(auto)]

mod deciding;
mod posting;

pub use posting::post;

#[cfg(test)]
mod tests;
