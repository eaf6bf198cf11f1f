//! Texts of what a user gives and gets as predicates, one line for each. The layers above learn that a text is read as the
//! sets of its predicates, or that the line which is named is the first that cannot stand there.
#![tactic(auto)]

mod adding;
mod annotation;
mod certificates;
mod head;
mod laws;
mod line;
mod listing;
mod predicates;
mod printing;

pub use annotation::{Annotation, Group};
pub use laws::{
    one_line_is_bad_at_most, passing_annotations_are_safe, passing_annotations_cover,
    texts_tell_predicates, whole_annotations_are_of_their_program,
};
pub use listing::instances;
pub use predicates::read_predicates;
pub use printing::print_annotation;

#[cfg(test)]
mod tests;
