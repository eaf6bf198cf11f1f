ghost use Rattle.std.specs.Prelude.{◌≡◌, ◌↔◌, IsSome, IsTrue};
ghost use Rattle.std.specs.List.{AllByRecursion};
ghost use Rattle.transition_formula.specs.Program.{at_number};
ghost use Rattle.horn_rules.specs.Home.{homes};
ghost use Rattle.horn_rules.specs.Stored.{home_numbered};
ghost use Rattle.core_steps.specs.Course.{opening_of, state_of};
ghost use Rattle.core_steps.specs.Pending.{IsClear};
ghost use Rattle.core_steps.specs.inside.Quiet.{IsFailing, NoneFails, NoneIn};

use crate::stored_core::Core;
use fact_table::LiveFact;
use horn_rules::named;
use thr_base::{Home, HomeNo};
use transition_formula::Program;

impl<'p> Core<'p> {
    /// Whether it is quiet, and no live fact is at location 0.
    pub fn clear(&self) -> bool
        ensures { IsTrue result ↔ IsClear (opening_of self.now) (state_of self.now) }
    {
        if !self.quiet() {
            return false;
        }
        self.none_fails()
    }

    fn none_fails(&self) -> bool
        ensures { IsTrue result ↔ NoneFails (state_of self.now) }
    {
        none_in(self.program, self.table.facts())
    }
}

/// Whether none of the facts is at location 0.
fn none_in(program: &Program, facts: &[LiveFact]) -> bool
    requires { AllByRecursion (λ f. IsSome (at_number (homes program.now) f.fact.home.0)) facts.now }
    ensures { IsTrue result ↔ NoneIn program.now facts.now }
{
    for f in facts {
        if is_failing(program, f.fact.home) {
            return false;
        }
    }
    true
}

/// Whether the home is at location 0.
pub(crate) fn is_failing(program: &Program, home: HomeNo) -> bool
    requires { IsSome (at_number (homes program.now) home.0) }
    ensures { IsTrue result ↔ IsFailing (home_numbered program.now home.0) }
{
    match named(program, home) {
        Home::State(_, location) => location.0 == 0,
        Home::Env(..) => false,
    }
}
