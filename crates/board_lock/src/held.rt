//! The turn, while one thread holds it.
ghost use Rattle.std.specs.Prelude.{◌≡◌, []};
ghost use mir.Syntax.{named};
ghost use Rattle.std.specs.Borrow.{Lends, sem};
ghost use Rattle.board_lock.specs.Turns.{value_of, with_value};
ghost use Rattle.board_lock.specs.contracts.held.Held.{the_row};

use crate::rule::Place;
use std::marker::{Model, PhantomData};
use thr_base::Recorded;

/// The place of the holder in the table. Contracts see the board and the history at the taking.
pub struct Grip<M: Recorded> {
    pub(crate) place: Place<M>,
}

impl<M: Recorded> Model for Grip<M> {
    ghost use Rattle.std.specs.Prelude.{◌≡◌, true, [], ◌∷◌, None};
    ghost use Rattle.board_lock.specs.Seats.{SeatView};

    ghost Value = { SeatView M.Entry };

    ghost view = { λ g. record { board = g.place.table_id; seen = g.place.me.0.seen } };

    ghost invariant = { λ g. (g.place.me.0.has_turn ≡ true) × (g.place.me.1 ≡ (0, None) ∷ []) };
}

/// The turn with the value. It is not `Drop`: give it back.
pub struct Held<'t, M: Recorded> {
    pub(crate) grip: Grip<M>,
    pub(crate) value: M,
    pub(crate) turn: PhantomData<&'t ()>,
}

impl<M: Recorded> Held<'_, M> {
    /// The value, to be read and changed.
    pub fn value(&mut self) -> &mut M
        ensures* writes_back { sem 𝓛 (Lends (the_row (record { mir = named 1; lft = [] }) M.row M.Entry.row M.Recorded) M.row self.entry result (with_value self.old)) }
        ensures value { result.now ≡ value_of self.old }
    {
        &mut self.value
    }
}
