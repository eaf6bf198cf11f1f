ghost use Rattle.std.specs.Prelude.{◌≡◌, ◌+◌, ◌^◌, ◌<◌, All, ◌-◌, ◌↔◌, min, IsTrue, Contains};
ghost use Rattle.thr_base.specs.InMemory.{FailingCallsView, NextFails, CountsCall};

use std::marker::Model;

/// Calls that are counted from 1, of which those with some numbers fail.
#[derive(Drop)]
pub struct FailingCalls {
    made: u64,
    failing: Vec<u64>,
}

impl Model for FailingCalls {
    ghost Value = { FailingCallsView };

    ghost view = { λ c. record { made = c.made; failing = c.failing.items } };

    ghost invariant = { λ c. All (λ n. n < 2 ^ 64) c.failing.items };
}

impl FailingCalls {
    pub fn new(failing: Vec<u64>) -> FailingCalls
        ensures { result ≡ record { made = 0; failing = failing.items } }
    {
        FailingCalls { made: 0, failing }
    }

    /// Counts a call, and says whether it fails. A number that a `u64` does not hold fails nowhere.
    pub fn next_fails(&mut self) -> bool
        ensures fails { IsTrue result ↔ NextFails self.old }
        ensures counted { CountsCall self.old self.new }
    {
        match self.made.checked_add(1) {
            Some(number) => {
                self.made = number;
                self.failing.contains(&number)
            }
            None => false,
        }
    }
}
