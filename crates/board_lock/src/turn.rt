//! The turn at a value, which one thread at a time has.
ghost use Rattle.std.specs.Prelude.{◌≡◌, ◌⊎◌, ◌∷◌, [], true, IfOk};
ghost use mathlib.Core.List.{IsPrefix};
ghost use Rattle.board_lock.specs.Turns.{board_of, taken_of, value_of};

use crate::held::{Grip, Held};
use crate::rule::{Board, Compare, Give, Halve, Merge, Place, Top, Try};
use crate::seat::Seat;
use atomic_table::Table;
use std::alloc::{AllocError, Global};
use std::marker::{Model, PhantomData};
use std::snapshot::Snapshot;
use std::sync::Wait;
use thr_base::Recorded;

/// What a thread that waits looks at: the lower half of the word.
const HALF: u64 = 1 << 32;

/// A value that threads take turns at. Contracts see which board it is.
#[derive(Drop)]
pub struct Turn<M: Recorded + Send + Drop> {
    table: Board<M>,
}

impl<M: Recorded + Send + Drop> Model for Turn<M> {
    ghost use Rattle.std.specs.Prelude.{◌≡◌};
    ghost use Rattle.board_lock.specs.Seats.{TableId};

    ghost Value = { TableId };

    ghost view = { λ t. t.table.shared.table_id };

    ghost invariant = { λ t. (t.table.shared.table_id.words ≡ 1) × (t.table.shared.table_id.slots ≡ 1) };
}

impl<M: Recorded + Send + Drop> Turn<M> {
    /// The seat has seen the whole history of the value.
    pub fn new(alloc: Global, value: M) -> Result<(Turn<M>, Seat<M::Entry>), AllocError>
        ensures board { IfOk result (λ made. made.1.board ≡ made.0) }
        ensures seen { IfOk result (λ made. made.1.seen ≡ M.history value) }
    {
        let word = 2 * value.recorded();
        let about = Snapshot::of(&value);
        let mut slots = Vec::with_capacity(alloc, 1)?;
        slots.push_reserved(Some(value));
        let made: Result<(Board<M>, Place<M>), _> = Table::new(alloc, &[word], slots, &about);
        let Ok((table, place)) = made else {
            return Err(AllocError);
        };
        Ok((
            Turn { table },
            Seat {
                badge: place.into_badge(),
            },
        ))
    }

    /// Waits for the turn. The value's history begins with all that the seat had seen.
    pub fn take_turn<'t, W: Wait>(&'t self, rt: &W, seat: Seat<M::Entry>) -> Held<'t, M>
        requires { seat.board ≡ self.now }
        ensures board { board_of result ≡ self.now }
        ensures taken { taken_of result ≡ M.history (value_of result) }
        ensures begins { IsPrefix seat.seen (taken_of result) }
    {
        let Seat { badge } = seat;
        let mut place: Place<M> = badge.into_seat();
        let value = wait_for_turn(rt, &self.table.shared, &mut place);
        Held {
            grip: Grip { place },
            value,
            turn: PhantomData,
        }
    }

    /// Gives the turn back. The seat has seen all of the history.
    pub fn give_turn(&self, held: Held<'_, M>) -> Seat<M::Entry>
        requires board { board_of held ≡ self.now }
        requires grown { IsPrefix (taken_of held) (M.history (value_of held)) }
        ensures board { result.board ≡ self.now }
        ensures seen { result.seen ≡ M.history (value_of held.entry) }
    {
        let Held {
            grip,
            value,
            turn: _,
        } = held;
        let Grip { mut place } = grip;
        let shared = &self.table.shared;
        let given = 2 * value.recorded();
        shared.exchange(&mut place, 0, Some(value));
        shared.store::<Give>(&mut place, 0, given);
        shared.wake_one(0);
        Seat {
            badge: place.into_badge(),
        }
    }

    /// Two seats, both of which have seen what the one had.
    pub fn split(&self, seat: Seat<M::Entry>) -> (Seat<M::Entry>, Seat<M::Entry>)
        requires { seat.board ≡ self.now }
        ensures first { result.0 ≡ seat }
        ensures second { result.1 ≡ seat }
    {
        let Seat { badge } = seat;
        let mut place: Place<M> = badge.into_seat();
        let other = self.table.shared.split_seat::<Halve>(&mut place);
        (
            Seat {
                badge: place.into_badge(),
            },
            Seat {
                badge: other.into_badge(),
            },
        )
    }

    /// The seat that has seen what both had: one of the two histories begins the other.
    pub fn join(&self, one: Seat<M::Entry>, other: Seat<M::Entry>) -> Seat<M::Entry>
        requires one { one.board ≡ self.now }
        requires other { other.board ≡ self.now }
        ensures longer { (result ≡ one) ⊎ (result ≡ other) }
        ensures one { IsPrefix one.seen result.seen }
        ensures other { IsPrefix other.seen result.seen }
    {
        let Seat { badge: first } = one;
        let Seat { badge: second } = other;
        let mut place: Place<M> = first.into_seat();
        let shared = &self.table.shared;
        shared.join_seat::<Merge>(&mut place, second.into_seat());
        shared.load::<Compare>(&mut place, 0);
        Seat {
            badge: place.into_badge(),
        }
    }

    /// Waits for the turn and keeps the value. Its history begins with all that the seat had seen.
    pub fn close<W: Wait>(self, rt: &W, seat: Seat<M::Entry>) -> M
        requires { seat.board ≡ self }
        ensures { IsPrefix seat.seen (M.history result) }
    {
        let Held {
            grip: Grip { place: _ },
            value,
            turn: _,
        } = self.take_turn(rt, seat);
        value
    }
}

/// Waits for the turn and takes the value out of the slot.
fn wait_for_turn<M: Recorded, W: Wait>(rt: &W, shared: &Top<M>, place: &mut Place<M>) -> M
    requires table { (shared.now.table_id.words ≡ 1) × (shared.now.table_id.slots ≡ 1) }
    requires place { (place.old.table_id ≡ shared.now.table_id) × (place.old.me.1 ≡ []) }
    ensures table { place.new.table_id ≡ place.old.table_id }
    ensures view { (place.new.me.0.has_turn ≡ true) × (place.new.me.0.seen ≡ M.history result) }
    ensures slot { place.new.me.1 ≡ (0, None) ∷ [] }
    ensures begins { IsPrefix place.old.me.0.seen (M.history result) }
{
    for _ in rt.forever() {
        let word = shared.peek(0);
        if word % 2 == 0 {
            let found = shared.compare_exchange::<Try>(place, 0, word, word + 1);
            if found == word {
                return shared.exchange(place, 0, None).unwrap();
            }
        } else {
            shared.park(rt, 0, (word % HALF) as u32);
        }
    }
    unreachable!()
}
