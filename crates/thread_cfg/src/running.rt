//! A thread whose edges are found.

ghost use Rattle.std.specs.Prelude.{◌≤◌};
ghost use Rattle.thr_base.specs.Limits.{most_columns};

use crate::frame::Frame;

/// A thread among the columns of all threads, with the number of its first temporary.
#[derive(Clone, Copy)]
pub(crate) struct Running {
    pub(crate) columns: u32,
    pub(crate) frame: Frame,
    pub(crate) temporary: usize,
    ghost few_columns: { columns ≤ most_columns },
}
