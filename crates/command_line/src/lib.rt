//! The command line: what words ask of the program, or that they are refused. It reads words alone, and promises
//! that a request is given exactly where the grammar has one.
#![tactic(auto)]

mod arguments;
mod commands;
mod given;
mod kinds;
mod laws;
mod numbers;
mod options;
mod reading;
mod works;

pub use commands::Command;
pub use laws::{each_option_stands_once, limits_are_allowed, words_ask_for_one};
pub use options::Options;
pub use reading::{Request, read_words};
pub use works::Work;

#[cfg(test)]
mod tests;
