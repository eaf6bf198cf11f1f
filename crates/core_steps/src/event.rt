use derivation_tree::{Left, Scope};
use lin_rows::Atom;
use thr_base::{Fact, FactId, Home, HomeNo, Instance};
use transition_formula::Schedule;

/// Why a run stops: so many facts are live and a further one was posted; there were so many publishes that were not stale, or so many
/// refinements; the home would get too many predicates; a job or a tree is left; a run fails; or there was no memory.
#[derive(Drop)]
pub enum Reason<'p> {
    Facts(u32),
    Jobs(u32),
    Refinements(u32),
    Predicates(Home),
    Left(Left<'p>),
    Unsafe(Schedule),
    Memory,
}

/// What happens in a run, the worker first.
#[derive(Drop)]
pub enum Event<'p> {
    Take(u32, Instance),
    New(u32, FactId, Fact),
    Same(u32, FactId),
    Nothing(u32),
    StalePublish(u32),
    Claim(u32, FactId),
    Refine(u32, Scope, Vec<(HomeNo, Atom)>),
    StaleRefine(u32),
    Stop(u32, Reason<'p>),
    StaleStop(u32),
}
