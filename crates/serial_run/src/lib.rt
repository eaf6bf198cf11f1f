//! A run on one thread: pending jobs are taken, posted and published one after another, until nothing is pending or the run stops. The
//! layers above learn that the core has then only more history than before, and that a stop stands or it is quiet.
#![tactic(auto)]

mod asking;
mod next;
mod run;

pub use asking::Poster;
pub use run::run_serial;
