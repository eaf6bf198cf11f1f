ghost use Rattle.std.specs.Prelude.{◌≡◌, ◌↔◌, ◌<◌, IsTrue, pos, length, slice_index_or};
ghost use Rattle.transition_formula.specs.Step.{MayStart, IsInitial};

use transition_formula::Program;

/// A column may start with the value that it has in a state.
fn may_start(start: Option<i128>, state: &[i128], column: u32) -> bool
    requires { column < length state.now }
    ensures { IsTrue result ↔ MayStart start (slice_index_or state.now column (pos 0)) }
{
    match start {
        Some(start) => state[column as usize] == start,
        None => true,
    }
}

/// Whether a program starts in a state: each column that has a start is there.
pub fn initial(program: &Program, state: &[i128]) -> bool
    requires { length state.now ≡ length program.now.columns }
    ensures { IsTrue result ↔ IsInitial program.now.columns state.now }
{
    'columns: for column in 0..program.columns() {
        let start = program.column(column).start;
        if !may_start(start, state, column) {
            return false;
        }
    }
    true
}
