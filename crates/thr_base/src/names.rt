/// A thread, from 1 in the order of creation.
#[derive(Clone, Copy, Debug, PartialEq, Eq, PartialOrd, Ord)]
pub struct ThreadNo(pub u32);

/// A location of a thread, from 1 in text order; 0 is the failing location.
#[derive(Clone, Copy, Debug, PartialEq, Eq, PartialOrd, Ord)]
pub struct Loc(pub u32);

/// An edge of a thread, from 1 by the locations of the actions.
#[derive(Clone, Copy, Debug, PartialEq, Eq, PartialOrd, Ord)]
pub struct EdgeNo(pub u32);

/// A fact of a table, from 1 in the order in which facts came.
#[derive(Clone, Copy, Debug, PartialEq, Eq, PartialOrd, Ord)]
pub struct FactId(pub u32);

/// A home, from 1: the state homes by thread and location, then the environment homes by thread and edge.
#[derive(Clone, Copy, Debug, PartialEq, Eq, PartialOrd, Ord)]
pub struct HomeNo(pub u32);

/// How often the predicates of a home, or the facts that they rest on, changed.
#[derive(Clone, Copy, Debug, PartialEq, Eq, PartialOrd, Ord)]
pub struct Epoch(pub u32);

/// Where a fact stands: at a thread's location, of which it describes the states, or at a thread's edge,
/// of which it describes the steps as the other threads see them.
#[derive(Clone, Copy, Debug, PartialEq, Eq, PartialOrd, Ord)]
pub enum Home {
    State(ThreadNo, Loc),
    Env(ThreadNo, EdgeNo),
}

/// A proof rule for threads: rely-guarantee, or that of Owicki and Gries.
#[derive(Clone, Copy, Debug, PartialEq, Eq)]
pub enum RuleName {
    Rg,
    Og,
}

/// That the predicates at some positions of a home's list hold there. Bit `k - 1` of `held` stands for
/// position `k`, from 1. The order is that of these numbers, and not the order in which texts list facts.
#[derive(Clone, Copy, Debug, PartialEq, Eq, PartialOrd, Ord)]
pub struct Fact {
    pub home: HomeNo,
    pub held: u128,
}

/// An application of a proof rule to facts: a thread's start, its own step, the step that it guarantees
/// to the others, a step of the environment of another thread, and under the rule of Owicki and Gries the
/// interference of another thread's step, from a state that the second fact describes.
#[derive(Clone, Copy, Debug, PartialEq, Eq, PartialOrd, Ord)]
pub enum Instance {
    Init(ThreadNo),
    Own(FactId, EdgeNo),
    Guar(FactId, EdgeNo),
    Env(FactId, FactId),
    Inter(FactId, FactId, EdgeNo),
}
