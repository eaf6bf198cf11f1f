//! What names stand for, where they are used as something of its kind.

ghost use Rattle.std.specs.Prelude.{◌≡◌};
ghost use Rattle.c_check.specs.Scope.{function_of, lock_of, variable_of};

use crate::meaning::{Meaning, Variable};
use crate::scopes::Scopes;
use c_tree::Name;

/// The variable that a name stands for; the first shared one where it stands for none.
pub fn variable(scopes: &Scopes, name: &Name) -> Variable
    ensures { result ≡ variable_of scopes.now name.now }
{
    match scopes.meaning(name) {
        Some(Meaning::Integer(variable)) => variable,
        _ => Variable::Shared(0),
    }
}

/// The number of the lock that a name stands for; 0 where it stands for none.
pub fn lock(scopes: &Scopes, name: &Name) -> usize
    ensures { result ≡ lock_of scopes.now name.now }
{
    match scopes.meaning(name) {
        Some(Meaning::Lock(number)) => number,
        _ => 0,
    }
}

/// The number of the thread function that a name stands for; 0 where it stands for none.
pub fn function(scopes: &Scopes, name: &Name) -> usize
    ensures { result ≡ function_of scopes.now name.now }
{
    match scopes.meaning(name) {
        Some(Meaning::Function(number)) => number,
        _ => 0,
    }
}
