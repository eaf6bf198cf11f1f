ghost use Rattle.std.specs.Prelude.{◌≡◌, ◌≢◌, ◌↔◌, ◌-◌, None, IsTrue};
ghost use Rattle.core_steps.specs.Course.{opening_of, state_of};
ghost use Rattle.core_steps.specs.State.{IsFree, IsWorker};

use crate::stored_core::Core;

impl<'p> Core<'p> {
    /// Whether a stop stands.
    pub(crate) fn is_stopped(&self) -> bool
        ensures { IsTrue result ↔ (state_of self.now).stop ≢ None }
    {
        self.stopped.is_some()
    }

    /// Whether the worker holds no job, and has claimed no fact.
    pub(crate) fn is_free(&self, w: u32) -> bool
        requires { IsWorker (opening_of self.now) w }
        ensures { IsTrue result ↔ IsFree (state_of self.now) w }
    {
        let place = w as usize - 1;
        self.holds[place].is_none() && self.claims[place].is_none()
    }
}
