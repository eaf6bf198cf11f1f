//! The facts that are live, each with the instance that it came from first. The layers above learn that ids rise and are never used
//! again, that no fact is live twice, and that whatever is not swept out stays as it was.
#![tactic(auto)]

mod fact_ids;
mod home_ids;
mod index;
mod live_fact;
mod lookup;
mod table;

pub use live_fact::{LiveFact, Rank};
pub use table::{Inserted, Table};

#[cfg(test)]
mod tests;
