use crate::stored_core::Core;
use std::marker::Model;
use thr_base::Recorded;

/// An entry of the whole history of a core: what it opened with, or an event. There is no value of it, since the journal has the events: it
/// is what clauses speak of.
#[derive(Drop)]
pub struct Note {
    never: u32,
}

impl Model for Note {
    ghost use Rattle.std.specs.Prelude.{◌<◌};
    ghost use Rattle.core_steps.specs.Event.{Nothing};
    ghost use Rattle.core_steps.specs.Noted.{Noted, Happened};

    ghost Value = { Noted };

    ghost view = { λ inside. Happened (Nothing inside.never) };

    ghost invariant = { λ inside. inside.never < 0 };
}

impl<'p> Recorded for Core<'p> {
    ghost use Rattle.core_steps.specs.Noted.{noted};

    type Entry = Note;

    ghost history = { noted };

    fn recorded(&self) -> u64 {
        self.journal.len() as u64 + 1
    }
}
