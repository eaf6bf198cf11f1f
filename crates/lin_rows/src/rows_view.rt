ghost use Rattle.std.specs.Prelude.{◌≡◌, ◌*◌, ◌-◌, ◌^◌, ◌<◌, length};
ghost use Rattle.std.specs.List.{AllByRecursion};
ghost use Rattle.thr_base.specs.Number.{Fits};
ghost use Rattle.lin_rows.specs.inside.Stored.{BoundFits, AllFit-prop, AllBoundsFit-prop};

use crate::row::RowView;
use crate::stored::RightSide;

/// Rows of a system, one behind the other, borrowed.
#[derive(Clone, Copy, Debug)]
pub struct RowsView<'a> {
    pub(crate) columns: u32,
    pub(crate) sides: &'a [RightSide],
    pub(crate) numbers: &'a [i128],
    ghost columns_fit: { columns < 2 ^ 32 },
    ghost count: { length sides.now < 2 ^ 32 - 1 },
    ghost size: { length numbers.now ≡ length sides.now * columns },
    ghost numbers_fit: { AllByRecursion Fits numbers.now } by { AllFit-prop numbers.now },
    ghost bounds_fit: { AllByRecursion BoundFits sides.now } by { AllBoundsFit-prop sides.now },
}

impl<'a> RowsView<'a> {
    ghost use Rattle.std.specs.Prelude.{◌≤◌, ◌+◌, slice_get, slice_range, Some};
    ghost use Rattle.lin_rows.specs.System.{IsWellFormed, IsRowOver, part_of};
    ghost use Rattle.lin_rows.specs.View.{row_of, system_of};

    #[tactic(auto, unfolding(crate::specs::View::system_of))]
    pub fn columns(&self) -> u32
        ensures columns { result ≡ (system_of self.now).columns }
        ensures well_formed { IsWellFormed (system_of self.now) }
    {
        self.columns
    }

    #[tactic(auto, unfolding(crate::specs::View::system_of))]
    /// The number of rows.
    pub fn count(&self) -> u32
        ensures count { result ≡ length (system_of self.now).rows }
        ensures well_formed { IsWellFormed (system_of self.now) }
    {
        self.sides.len() as u32
    }

    /// The coefficients of the rows from a place on up to another.
    fn numbers_between(&self, from: u32, to: u32) -> &'a [i128]
        requires order { from ≤ to }
        requires within { to ≤ length self.now.sides.now }
        ensures { result.now ≡ slice_range self.now.numbers.now (from * self.now.columns) (to * self.now.columns) }
    {
        let columns = self.columns as usize;
        &self.numbers[from as usize * columns..to as usize * columns]
    }

    #[tactic(auto, unfolding(crate::specs::View::system_of))]
    /// The row at a place from 0.
    pub fn row(&self, n: u32) -> RowView<'a>
        requires { n < length (system_of self.now).rows }
        ensures row { slice_get (system_of self.now).rows n ≡ Some (row_of result) }
        ensures over { IsRowOver (system_of self.now).columns (row_of result) }
    {
        let side = self.sides[n as usize];
        RowView {
            equal: side.equal,
            coefficients: self.numbers_between(n, n + 1),
            bound: side.bound,
        }
    }

    #[tactic(auto, unfolding(crate::specs::View::system_of))]
    /// The rows from a place on up to another, without copying.
    pub fn part(&self, from: u32, to: u32) -> RowsView<'a>
        requires order { from ≤ to }
        requires within { to ≤ length (system_of self.now).rows }
        ensures { system_of result ≡ part_of from to (system_of self.now) }
    {
        RowsView {
            columns: self.columns,
            sides: &self.sides[from as usize..to as usize],
            numbers: self.numbers_between(from, to),
        }
    }
}
