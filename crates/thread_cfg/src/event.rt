//! What happens on a way, as it stands in a plan: nothing of it is copied.

ghost use Rattle.std.specs.Prelude.{◌≡◌};
ghost use Rattle.thread_cfg.specs.inside.Meant.{frame_of};
ghost use Rattle.thread_cfg.specs.inside.Seen as seen;

use crate::frame::Frame;
use crate::relation::Relation;
use c_check::{Operation, Variable};

/// A number that is computed.
#[derive(Clone, Copy, Debug)]
pub(crate) enum Expression<'a> {
    Number(i128),
    Value(Variable),
    /// Operations of a plan.
    Whole(&'a [Operation]),
    /// The same, but each variable that all threads share stands for the temporary that it was read into: from the left, the
    /// one of this number, and those behind it.
    Cut(&'a [Operation], usize),
}

/// What happens.
#[derive(Clone, Copy, Debug)]
pub(crate) enum Event<'a> {
    /// Two numbers are related so, at the place of their comparison.
    Requires {
        from: u32,
        relation: Relation,
        left: Expression<'a>,
        right: Expression<'a>,
    },
    /// A variable is set to what is computed, at the place of that.
    Sets {
        at: u32,
        variable: Variable,
        value: Expression<'a>,
    },
    /// A variable is set to any integer.
    SetsAny(Variable),
}

impl Event<'_> {
    /// Whether the event takes an input.
    pub(crate) fn takes_input(&self) -> bool
        ensures { result ≡ seen.takes_input self.now }
    {
        match self {
            Event::SetsAny(_) => true,
            _ => false,
        }
    }

    /// Whether the event sets a column.
    pub(crate) fn sets(&self, frame: &Frame, column: u32) -> bool
        ensures { result ≡ seen.held_event_sets (frame_of frame.now) column self.now }
    {
        match self {
            Event::Requires { .. } => false,
            Event::Sets { variable, .. } => frame.is_column(*variable, column),
            Event::SetsAny(variable) => frame.is_column(*variable, column),
        }
    }
}
