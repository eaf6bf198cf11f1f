//! What a thread is to the values that all threads have.

ghost use Rattle.std.specs.Prelude.{◌≡◌, ◌<◌, ◌^◌, ◌==◌};
ghost use Rattle.thread_cfg.specs.Source.{column_of};
ghost use Rattle.thread_cfg.specs.inside.Meant.{frame_of};

use c_check::Variable;
use thr_base::ThreadNo;

/// A thread, by its number, among the columns of all threads.
#[derive(Clone, Copy, Debug)]
pub(crate) struct Frame {
    pub(crate) thread: ThreadNo,
    /// The column of the first of its own variables.
    pub(crate) first: usize,
    /// How many variables all threads share. Behind these stand the locks.
    pub(crate) variables: usize,
}

impl Frame {
    /// The column of a variable.
    pub(crate) fn column(&self, variable: Variable) -> u32
        requires { column_of (frame_of self.now) variable < 2 ^ 32 }
        ensures { result ≡ column_of (frame_of self.now) variable }
    {
        match variable {
            Variable::Shared(number) => number as u32,
            Variable::Own(number) => (self.first + number) as u32,
        }
    }

    /// Whether this is the column of a variable.
    pub(crate) fn is_column(&self, variable: Variable, column: u32) -> bool
        ensures { result ≡ (column_of (frame_of self.now) variable == column) }
    {
        let column = column as usize;
        match variable {
            Variable::Shared(number) => number == column,
            Variable::Own(number) => self.first <= column && number == column - self.first,
        }
    }
}
