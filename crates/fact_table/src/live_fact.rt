use thr_base::{Fact, FactId, Instance};

/// What the order in which instances are taken looks at of a fact: how many facts its derivation has, counted as a tree, and how many
/// steps lead to it from a thread's start on the side of first premises. Neither goes past the end of its type.
#[derive(Clone, Copy, Debug, PartialEq, Eq)]
pub struct Rank {
    pub size: u32,
    pub chain: u32,
}

/// A live fact, with the instance that it came from first. A mark says that the next sweep takes it out.
#[derive(Clone, Copy, Debug, PartialEq, Eq)]
pub struct LiveFact {
    pub id: FactId,
    pub fact: Fact,
    pub kept: Instance,
    pub rank: Rank,
    pub marked: bool,
}
