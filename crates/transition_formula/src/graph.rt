use lin_rows::Rows;
use thr_base::{Loc, ThreadNo};

/// A column of a program's states. It is shared where no thread owns it. Where it has no start, it may have any
/// integer initially.
#[derive(Debug, Drop)]
pub struct Column {
    pub text: Vec<u8>,
    pub owner: Option<ThreadNo>,
    pub start: Option<i128>,
}

/// `coefficients . z + constant`.
#[derive(Debug, Drop)]
pub struct Line {
    pub coefficients: Vec<i128>,
    pub constant: i128,
}

/// An edge of a thread. Its tests and lines are over the columns followed by the inputs.
#[derive(Debug, Drop)]
pub struct Edge {
    pub from: Loc,
    pub to: Loc,
    pub inputs: u32,
    pub tests: Rows,
    pub sets: Vec<(u32, Line)>,
}

/// A thread: the column of its counter, how many locations it has, the failing one and the exit among them, and its
/// edges.
#[derive(Debug, Drop)]
pub struct ThreadGraph {
    pub counter: u32,
    pub locations: u32,
    pub edges: Vec<Edge>,
}
