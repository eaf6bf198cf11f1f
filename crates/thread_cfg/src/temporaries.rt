//! Temporaries in place of the variables that all threads share.

ghost use Rattle.std.specs.Prelude.{◌≡◌};
ghost use Rattle.thread_cfg.specs.inside.Machine as machine;

use c_check::{Operation, Variable};

/// The operation, on the next temporary where it reads a variable that all threads share.
pub(crate) fn over_temporary(next: Option<usize>, operation: Operation) -> Operation
    ensures { result ≡ machine.replaced next operation }
{
    match (next, operation) {
        (Some(next), Operation::Value(Variable::Shared(_))) => {
            Operation::Value(Variable::Own(next))
        }
        _ => operation,
    }
}

/// The next temporary behind the operation.
pub(crate) fn next_temporary(next: Option<usize>, operation: Operation) -> Option<usize>
    requires { machine.HasRoom next operation }
    ensures { result ≡ machine.next_temporary next operation }
{
    match (next, operation) {
        (Some(next), Operation::Value(Variable::Shared(_))) => Some(next + 1),
        _ => next,
    }
}
