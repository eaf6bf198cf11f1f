use derivation_tree::Kept;
use horn_rules::Job;
use thr_base::FactId;

/// What comes of a take.
#[derive(Drop)]
pub enum Taken<'p> {
    Job(Job<'p>),
    NothingPending,
    HoldsAlready,
    Stopped,
}

/// What comes of a publish.
#[derive(Clone, Copy, Debug, PartialEq, Eq)]
pub enum Published {
    New(FactId),
    Same(FactId),
    Nothing,
    Stale,
    NotHeld,
    Stopped,
}

/// What comes of a stop.
#[derive(Clone, Copy, Debug, PartialEq, Eq)]
pub enum StopAnswer {
    Recorded,
    Stale,
    NotHeld,
    Stopped,
}

/// What comes of a claim.
#[derive(Drop)]
pub enum Claimed<'p> {
    Kept(Kept<'p>),
    NothingClaimable,
    HoldsAlready,
    Stopped,
}

/// What comes of a refine: so many facts were withdrawn, or an answer without an effect on them.
#[derive(Clone, Copy, Debug, PartialEq, Eq)]
pub enum Refined {
    Done(u32),
    Stale,
    NotHeld,
    Stopped,
}
