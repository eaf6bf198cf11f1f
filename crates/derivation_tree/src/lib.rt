//! The trees of derivations: the facts below a failing one, unfolded, with the systems of rows that decide whether it can be
//! refuted, and what is taught by a certificate. The layers above learn what each of these values keeps.
#![tactic(auto)]

mod kept;
mod laws;
mod left;
mod refutation;
mod scope;

pub use kept::Kept;
pub use laws::{
    chain_points_are_runs, facts_have_trees, full_points_give_chain_points,
    lessons_are_of_solutions, points_have_no_solution, sums_are_solutions,
};
pub use left::{Left, LeftCause};
pub use refutation::Refutation;
pub use scope::{Scope, System, TreeLeft};
