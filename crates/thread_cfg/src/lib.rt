//! The graph of each thread of a program: its locations and edges, with the same steps as the text.
#![tactic(auto)]

mod along;
mod block;
mod branches;
mod building;
mod columns;
mod comparing;
mod counter;
mod doing;
mod edge;
#[cfg(test)]
mod edge_tests;
mod event;
mod finding;
mod form;
mod frame;
mod going;
mod laws;
mod located;
mod locking;
mod marks;
mod part;
mod pass;
mod paths;
mod places;
mod read;
mod reading;
mod relation;
mod row;
mod running;
mod sides;
mod sizes;
mod stack;
mod temporaries;
mod thread;
#[cfg(test)]
mod thread_tests;

pub use building::build;
pub use laws::{
    edges_are_of_actions, edges_happen, paths_tell_ways, programs_step_alike,
    runs_go_as_interleavings, texts_are_read_exactly, texts_fail_alike, threads_fail_alike,
};
pub use located::location_places;
pub use read::read_program;
