ghost use Rattle.std.specs.Prelude.{◌≡◌, ◌≢◌, ◌∷◌, [], None};
ghost use Rattle.core_steps.specs.Allowed.{Allows};
ghost use Rattle.core_steps.specs.Course.{opening_of, state_of, with_events};
ghost use Rattle.core_steps.specs.Event.{StaleStop as Drops, StaleRefine as Drops_claim};
ghost use Rattle.core_steps.specs.State.{IsWorker};
ghost use Rattle.core_steps.specs.inside.Changing.{DropsAnyClaim};
ghost use Rattle.core_steps.specs.inside.Standing.{DropsWhatIsHeld};

use crate::event::Event;
use crate::recording::{add_event, put_at};
use crate::stored_core::Core;

impl<'p> Core<'p> {
    /// What the worker holds is dropped, at a stop.
    pub(crate) fn drop_held(&mut self, w: u32)
        requires { Allows (opening_of self.old) (state_of self.old) (Drops w) }
        ensures { self.new ≡ with_events self.old (Drops w ∷ []) }
    {
        put_at(&mut self.holds, w as usize - 1, None);
        put_at(&mut self.claims, w as usize - 1, None);
        add_event(&mut self.journal, Event::StaleStop(w));
    }

    /// The worker's claim is dropped, at a refine.
    pub(crate) fn drop_claim(&mut self, w: u32)
        requires { Allows (opening_of self.old) (state_of self.old) (Drops_claim w) }
        ensures { self.new ≡ with_events self.old (Drops_claim w ∷ []) }
    {
        put_at(&mut self.claims, w as usize - 1, None);
        add_event(&mut self.journal, Event::StaleRefine(w));
    }

    /// After a stop: what the worker holds is dropped, if it holds anything.
    pub(crate) fn drop_any(&mut self, w: u32)
        requires worker { IsWorker (opening_of self.old) w }
        requires stop { (state_of self.old).stop ≢ None }
        ensures { DropsWhatIsHeld self.old w self.new }
    {
        let _program = &self.program; // what every core keeps is known from here on
        if !self.is_free(w) {
            self.drop_held(w);
        }
    }

    /// After a stop: the claim that the worker holds is dropped, if it holds one.
    pub(crate) fn drop_any_claim(&mut self, w: u32)
        requires { (state_of self.old).stop ≢ None }
        ensures { DropsAnyClaim self.old w self.new }
    {
        let _program = &self.program; // what every core keeps is known from here on
        match self.root_claimed(w) {
            Some(_) => self.drop_claim(w),
            None => {}
        }
    }
}
