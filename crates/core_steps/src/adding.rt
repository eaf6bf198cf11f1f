ghost use Rattle.std.specs.Prelude.{◌≡◌, ◌∷◌, []};
ghost use Rattle.core_steps.specs.Allowed.{Allows};
ghost use Rattle.core_steps.specs.Course.{opening_of, state_of, with_events};
ghost use Rattle.core_steps.specs.Event.{Nothing as Posts_nothing, StalePublish as Drops};
ghost use Rattle.core_steps.specs.inside.Publishing.{AddsAs, IsToPublish, added_events};

use crate::event::Event;
use crate::recording::{add_event, put_at};
use crate::stored_core::Core;
use fact_table::Inserted;
use horn_rules::Job;
use thr_base::Fact;

impl<'p> Core<'p> {
    /// The worker's job is dropped.
    pub(crate) fn drop_job(&mut self, w: u32)
        requires { Allows (opening_of self.old) (state_of self.old) (Drops w) }
        ensures { self.new ≡ with_events self.old (Drops w ∷ []) }
    {
        put_at(&mut self.holds, w as usize - 1, None);
        add_event(&mut self.journal, Event::StalePublish(w));
    }

    /// The worker's job is published, and gives nothing.
    pub(crate) fn add_nothing(&mut self, w: u32)
        requires { Allows (opening_of self.old) (state_of self.old) (Posts_nothing w) }
        ensures { self.new ≡ with_events self.old (Posts_nothing w ∷ []) }
    {
        put_at(&mut self.holds, w as usize - 1, None);
        self.published += 1;
        add_event(&mut self.journal, Event::Nothing(w));
    }

    /// A posted fact becomes live and its job is published, unless as many facts are live as may be: then nothing changes.
    pub(crate) fn add_fact(&mut self, job: &Job<'p>, fact: Fact) -> Inserted
        requires { IsToPublish (opening_of self.old) (state_of self.old) job.now fact }
        ensures answer { AddsAs (opening_of self.old) (state_of self.old) job.now fact result }
        ensures course { self.new ≡ with_events self.old (added_events self.old.program job.now fact result) }
    {
        let _program = &self.program; // what every core keeps is known from here on
        let w = job.worker;
        let place = w as usize - 1;
        let inserted = self.table.insert(fact, job.instance);
        match inserted {
            Inserted::New(id) => {
                let _facts = self.table.facts(); // its contract says that it is a table
                self.waiting.came(&self.table);
                put_at(&mut self.holds, place, None);
                self.published += 1;
                add_event(&mut self.journal, Event::New(w, id, fact));
                Inserted::New(id)
            }
            Inserted::Same(id) => {
                put_at(&mut self.holds, place, None);
                self.published += 1;
                add_event(&mut self.journal, Event::Same(w, id));
                Inserted::Same(id)
            }
            Inserted::Full => Inserted::Full,
        }
    }
}
