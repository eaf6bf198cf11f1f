//! What the program does, over stores and sinks: reads words and texts, and writes the answer.
#![tactic(auto)]

mod answer;
mod words;

pub use answer::threader_serial;
