//! A run as one history of events: what each event does, which are allowed, and what holds after every legal history, whichever worker
//! made which of its events. The layers above learn that a quiet run has exactly the least set of facts.
#![tactic(auto)]

mod adding;
mod agreeing;
mod answers;
mod bounds;
mod changing;
mod claiming;
mod dropping;
mod event;
mod failing;
mod growing;
mod held;
mod jobs;
mod keeping;
mod laws;
mod looks;
mod noting;
mod opening;
mod picking;
mod presence;
mod printing;
mod publishing;
mod quiet;
mod recording;
mod refining;
mod standing;
mod stopping;
mod stored_core;
mod taking;

pub use answers::{Claimed, Published, Refined, StopAnswer, Taken};
pub use bounds::stops_tell_of_the_least_set;
pub use event::{Event, Reason};
pub use laws::{
    done_instances_are_posted, ends_stay, histories_are_short, instances_are_done_held_or_pending,
    live_facts_are_derived, no_job_is_published_twice, publishes_are_few,
    quiet_states_have_the_least_set, what_remains_is_not_withdrawn,
};
pub use noting::Note;
pub use printing::print_tables;
pub use stored_core::Core;
