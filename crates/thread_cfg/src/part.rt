//! What a thread does at a location, with the reads in front of it, and where it leads.

use c_check::{Assignment, Comparison, Instruction, Variable};
use thr_base::Loc;

/// Each but an assignment and a comparison at the place of its first token.
#[derive(Clone, Copy)]
pub(crate) enum Part<'a> {
    Assign(&'a Assignment, Loc),
    AssignAny(u32, Variable, Loc),
    /// Either side may be gone to.
    Choice(u32, Loc, Loc),
    /// Its true side, and its false side.
    Compare(&'a Comparison, Option<Loc>, Option<Loc>),
    Jump(u32, Loc),
    Lock(u32, usize, Loc),
    Unlock(u32, usize, Loc),
    /// An atomic block with what is in it.
    Block(u32, &'a [Instruction], Loc),
}
