ghost use Rattle.std.specs.Prelude.{◌≡◌, ◌<◌, ◌≤◌, ◌++◌, ◌∷◌, [], length, slice_set, OnOk, OnErr, Some};
ghost use Rattle.std.specs.Vec.{vec_capacity};
ghost use Rattle.horn_rules.specs.Stored.{instance_of};
ghost use Rattle.core_steps.specs.Allowed.{Allows};
ghost use Rattle.core_steps.specs.Course.{opening_of, state_of, with_events};
ghost use Rattle.core_steps.specs.Event.{Take, Stop as Stops, Claim as Claims};
ghost use Rattle.core_steps.specs.State.{Task};
ghost use Rattle.core_steps.specs.Stored.{reason_of};
ghost use Rattle.core_steps.specs.inside.Taking.{IsNextOf};

use crate::event::{Event, Reason};
use crate::held::Held;
use crate::stored_core::Core;
use pending_instances::Next;
use std::alloc::AllocError;
use thr_base::{Epoch, FactId};

impl<'p> Core<'p> {
    /// The worker takes what is next.
    pub(crate) fn add_take(&mut self, w: u32, next: Next) -> Result<(), AllocError>
        requires allowed { Allows (opening_of self.old) (state_of self.old) (Take w (instance_of next.instance)) }
        requires next { (task : Task) × IsNextOf (opening_of self.old) (state_of self.old) next task }
        ensures ok { OnOk result (self.new ≡ with_events self.old (Take w (instance_of next.instance) ∷ [])) }
        ensures err { OnErr result (self.new ≡ self.old) }
    {
        let epoch = Epoch(self.epochs[next.home.0 as usize - 1]);
        self.waiting.take(next.instance)?;
        let held = Held {
            instance: next.instance,
            home: next.home,
            epoch,
        };
        put_at(&mut self.holds, w as usize - 1, Some(held));
        add_event(&mut self.journal, Event::Take(w, next.instance));
        Ok(())
    }

    /// The worker has claimed the fact.
    pub(crate) fn add_claim(&mut self, w: u32, root: FactId)
        requires { Allows (opening_of self.old) (state_of self.old) (Claims w root.0) }
        ensures { self.new ≡ with_events self.old (Claims w root.0 ∷ []) }
    {
        put_at(&mut self.claims, w as usize - 1, Some(root));
        add_event(&mut self.journal, Event::Claim(w, root));
    }

    /// The run stops.
    pub(crate) fn record_stop(&mut self, w: u32, reason: Reason<'p>)
        requires { Allows (opening_of self.old) (state_of self.old) (Stops w (reason_of reason)) }
        ensures { self.new ≡ with_events self.old (Stops w (reason_of reason.entry) ∷ []) }
    {
        put_at(&mut self.holds, w as usize - 1, None);
        put_at(&mut self.claims, w as usize - 1, None);
        self.stopped = Some(self.journal.len());
        add_event(&mut self.journal, Event::Stop(w, reason));
    }
}

/// Puts an element at a place.
pub(crate) fn put_at<T: Copy + Drop>(items: &mut Vec<T>, place: usize, item: T)
    requires { place < length items.old.items }
    ensures { items.new.items ≡ slice_set items.old.items place item }
{
    items[place] = item;
}

/// Puts an event at the end, where there is room.
pub(crate) fn add_event<'p>(journal: &mut Vec<Event<'p>>, event: Event<'p>)
    requires { length journal.old.items < vec_capacity journal.old }
    ensures events { journal.new.items ≡ journal.old.items ++ event.entry ∷ [] }
    ensures capacity { vec_capacity journal.old ≤ vec_capacity journal.new }
{
    if journal.push(event).is_err() {
        unreachable!()
    }
}
