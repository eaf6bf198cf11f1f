ghost use Rattle.std.specs.Prelude.{◌≡◌, ◌≢◌, ◌↔◌, ℕ, IsTrue};
ghost use Rattle.std.specs.List.{AllByRecursion};
ghost use Rattle.horn_rules.specs.Home.{State};
ghost use Rattle.horn_rules.specs.Stored.{home_numbered, HasItsHome};
ghost use Rattle.annotation_check.specs.inside.Proving.{IsFailure};

use horn_rules::named;
use thr_base::{Fact, Home, Loc};
use transition_formula::Program;

/// Whether a fact is at location 0 of a thread.
fn is_failing(program: &Program, fact: Fact) -> bool
    requires { HasItsHome program.now fact }
    ensures { IsTrue result ↔ IsFailure (home_numbered program.now fact.home.0) }
{
    match named(program, fact.home) {
        Home::State(_, l) => l == Loc(0),
        Home::Env(..) => false,
    }
}

/// Whether no fact is at location 0 of a thread.
pub(crate) fn none_fails(program: &Program, facts: &[Fact]) -> bool
    requires { AllByRecursion (HasItsHome program.now) facts.now }
    ensures { IsTrue result ↔ AllByRecursion (λ fact. ¬ IsFailure (home_numbered program.now fact.home.0)) facts.now }
{
    for fact in facts {
        if is_failing(program, *fact) {
            return false;
        }
    }
    true
}
