use crate::kept::Kept;
use crate::line::Line;
use farkas_cert::{Cert, LeaveKind};

/// What a stage starts from.
#[derive(Debug, Drop)]
pub struct Work {
    pub lines: Vec<Line>,
    /// In the order of the stages.
    pub kept: Vec<Kept>,
    /// How many lines pair stages made so far.
    pub made: u64,
}

/// What a stage comes to.
#[derive(Debug, Drop)]
pub enum Next {
    Goes(Work),
    /// The multipliers of a false line, and the number of the stage. Whether their sums fit is not looked at yet.
    Refutes(Cert, u32),
    Leaves(u32, LeaveKind),
}
