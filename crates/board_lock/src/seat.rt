//! A seat between turns.
use crate::view::View;
use atomic_table::Badge;
use std::marker::Model;

/// What one thread knows of the history. Contracts see the board that it is of, and the history that its owner has seen.
#[derive(Drop)]
pub struct Seat<E> {
    pub(crate) badge: Badge<View<E>>,
}

impl<E> Model for Seat<E> {
    ghost use Rattle.board_lock.specs.Seats.{SeatView};
    ghost use Rattle.board_lock.specs.inside.Views.{seen_of, IsAtRest};

    ghost Value = { SeatView E };

    ghost view = { λ s. record { board = s.badge.table_id; seen = seen_of s.badge.views } };

    ghost invariant = { λ s. IsAtRest s.badge.views };
}
