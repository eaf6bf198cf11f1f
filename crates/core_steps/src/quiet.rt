ghost use Rattle.std.specs.Prelude.{◌≡◌, ◌↔◌, [], None, IsTrue, is_some};
ghost use Rattle.std.specs.List.{list_any};
ghost use Rattle.core_steps.specs.Course.{opening_of, state_of};
ghost use Rattle.core_steps.specs.Pending.{IsQuiet};
ghost use Rattle.core_steps.specs.inside.Taking.{NonePending};

use crate::held::Held;
use crate::stored_core::Core;

impl<'p> Core<'p> {
    /// Whether nothing is pending or held as a job, and no stop stands.
    pub fn quiet(&self) -> bool
        ensures { IsTrue result ↔ IsQuiet (opening_of self.now) (state_of self.now) }
    {
        if self.is_stopped() {
            return false;
        }
        if self.some_held() {
            return false;
        }
        self.none_pending()
    }

    /// Whether some worker holds a job.
    fn some_held(&self) -> bool
        ensures { IsTrue result ↔ ¬ ((state_of self.now).holds ≡ []) }
    {
        any_held(&self.holds)
    }

    fn none_pending(&self) -> bool
        requires { (state_of self.now).stop ≡ None }
        ensures { IsTrue result ↔ NonePending (opening_of self.now) (state_of self.now) }
    {
        match self.next_for(0) {
            None => true,
            Some(_) => false,
        }
    }
}

fn any_held(holds: &[Option<Held>]) -> bool
    ensures { result ≡ list_any (λ hold. is_some hold) holds.now }
{
    holds.iter().any(|hold| hold.is_some())
}
