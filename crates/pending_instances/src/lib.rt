//! Which instances of the rules over a program are open, said of the program: what cursors over its layout keep is exactly what leads
//! from live facts. The layers above learn what opens where facts come and go, in the words of homes, premises and targets.
#![tactic(auto)]

mod distance;
mod laws;
mod layouts;
mod pending;

pub use instance_cursors::Next;
pub use laws::{
    begun_cursors_have_what_leads, changed_homes_reopen_what_leads, comers_open_what_leads,
    cursors_stay_for_their_program, turns_are_instances_that_lead,
};
pub use layouts::{layout_of, starts_of};
pub use pending::PendingInstances;

#[cfg(test)]
mod tests;
