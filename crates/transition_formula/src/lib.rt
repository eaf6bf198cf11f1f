//! Programs as data: the columns of their states, and for each thread its locations and edges; runs of them, linear forms over
//! them, and the texts of atoms. The layers above learn that the rows of initial states hold at exactly these states, the rows of
//! an edge at exactly the steps by it, and that forms are given where they fit and texts tell what they are of.
#![tactic(auto)]

mod atom_text;
mod blocks;
mod edges;
mod graph;
mod initial;
mod laws;
mod lines;
mod program;
mod read_term;
mod reading;
mod schedule;
mod schedule_step;
mod worked;

pub use atom_text::push_atom;
pub use edges::{edge_rows, push_column_is, seen_rows};
pub use graph::{Column, Edge, Line, ThreadGraph};
pub use initial::init_rows;
pub use laws::{
    atom_texts_tell_atoms, edge_rows_are_exact, forms_are_exact, init_rows_are_exact,
    runs_end_in_reached_states,
};
pub use lines::sum_at;
pub use program::Program;
pub use reading::read_atom;
pub use schedule::{Schedule, ScheduleSteps};
pub use schedule_step::ScheduleStep;
pub use worked::two_threads;

#[cfg(test)]
mod form_tests;
#[cfg(test)]
mod tests;
