ghost use Rattle.std.specs.Prelude.{◌≡◌, ◌<◌, length, option_map, slice_get, Some};
ghost use Rattle.horn_rules.specs.Scope.{in_scope};
ghost use Rattle.horn_rules.specs.Stored.{home_of};

use thr_base::{Home, ThreadNo};
use transition_formula::Program;

/// Whether columns of this owner are in the scope of a home.
fn is_owner_in_scope(home: Home, owner: Option<ThreadNo>) -> bool
    ensures { result ≡ in_scope (home_of home) (option_map (λ thread. thread.0) owner) }
{
    match owner {
        None => true,
        Some(owner) => match home {
            Home::State(thread, _) => owner.0 == thread.0,
            Home::Env(_, _) => false,
        },
    }
}

/// Whether a column of the states is in the modular scope of a home.
pub fn is_in_scope(program: &Program, home: Home, column: u32) -> bool
    requires { column < length program.now.columns }
    ensures { option_map (λ found. in_scope (home_of home) found.owner) (slice_get program.now.columns column) ≡ Some result }
{
    is_owner_in_scope(home, program.owner(column))
}
