//! The table that threads share, its rule, and what each step on it tells.
//! Word 0 is twice the length of the history, and one more while the turn is taken. Slot 0 has the value while it is free.
//!
//! A seat takes five kinds of step. A split gives a new seat what the one has seen. A join keeps the longer history, and the other
//! seat is spent; the load behind it tells that the shorter begins the longer, and changes no view. A try to take the turn goes from
//! an even word to the next, and the winner has seen the history of the value. A give makes the word twice the new length, and the
//! seat has seen all. The value is taken out of the slot and put back with no step on the word, and a thread that waits looks
//! without its seat, which tells it nothing.
use crate::view::View;
use atomic_table::{Join, Play, Seat, Shared, Split, Table, TableRule};
use std::alloc::Global;
use std::snapshot::Snapshot;
use thr_base::Recorded;

/// The value has one history.
pub struct OneHistory;

impl<M: Recorded> TableRule<Option<M>, View<M::Entry>, Snapshot<M>> for OneHistory {
    ghost use Rattle.board_lock.specs.inside.Rule.{IsKept, resting};

    ghost holds = { λ key. IsKept M.history };

    ghost first = { λ key. resting (M.history key.value) };
}

pub type Board<M> = Table<Option<M>, View<<M as Recorded>::Entry>, Snapshot<M>, OneHistory, Global>;

pub type Top<M> = Shared<Option<M>, View<<M as Recorded>::Entry>, Snapshot<M>, OneHistory>;

pub type Place<M> = Seat<Option<M>, View<<M as Recorded>::Entry>>;

/// A step that tries to take the turn.
pub struct Try;

impl<M: Recorded> Play<Option<M>, View<M::Entry>> for Try {
    ghost use Rattle.board_lock.specs.inside.Steps.{Tries};

    ghost then = { Tries M.history };
}

/// A step that gives the turn back.
pub struct Give;

impl<M: Recorded> Play<Option<M>, View<M::Entry>> for Give {
    ghost use Rattle.board_lock.specs.inside.Steps.{Gives};

    ghost then = { Gives M.history };
}

/// A step that compares what was told with what was seen.
pub struct Compare;

impl<M: Recorded> Play<Option<M>, View<M::Entry>> for Compare {
    ghost use Rattle.board_lock.specs.inside.Steps.{Compares};

    ghost then = { Compares };
}

/// Both seats have seen what the one had.
pub struct Halve;

impl<E> Split<View<E>> for Halve {
    ghost left = { λ v. v };

    ghost right = { λ v. v };
}

/// The longer history has been seen, and the shorter was told.
pub struct Merge;

impl<E> Join<View<E>> for Merge {
    ghost use Rattle.board_lock.specs.inside.Steps.{merged, unseen};

    ghost both = { merged };

    ghost spent = { unseen };
}
