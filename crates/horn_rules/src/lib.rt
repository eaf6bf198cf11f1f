//! The rules of compositional verification over a program, with facts as what they are over: homes, predicates, facts, the
//! instances of rely-guarantee and of Owicki and Gries with their rows, what an instance gives, and the least set of facts. The
//! layers above learn that the rows of a job are exactly those of its instance, and that what is posted of it is its post.
#![tactic(auto)]

mod home_text;
mod homes;
mod job;
mod laws;
mod leading;
mod lines;
mod placing;
mod posted;
mod premise;
mod scope;
mod worked;

pub use home_text::push_home;
pub use homes::{has_home, home_count, named, number};
pub use job::{Job, Premise, instance_rows};
pub use laws::{
    atoms_are_placed, cases_are_unique, closed_sets_cover, facts_are_given, given_atoms_hold,
    instances_are_exact, interfering_steps_are_described, locations_and_edges_are_homes,
    own_steps_are_described, own_steps_are_told, posts_are_unique, premises_have_homes,
    starts_are_described, stored_values_tell_what_they_stand_for, tables_are_unique,
    targets_are_by_homes, the_least_set_is_closed, told_steps_are_described,
    where_nothing_fails_no_run_does, without_predicates_each_instance_gives_its_home,
};
pub use leading::{of_another, target, tells_another};
pub use lines::{push_fact, table};
pub use placing::{in_front, place_atom};
pub use posted::{PostAnswer, Posted};
pub use scope::is_in_scope;
pub use worked::two_bare_threads;

#[cfg(test)]
mod tests;
