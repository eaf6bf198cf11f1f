ghost use Rattle.std.specs.Prelude.{◌≡◌, ◌+◌, ◌-◌, ◌^◌, ◌<◌, [], length, OnOk, OnErr};
ghost use Rattle.std.specs.List.{AllByRecursion};
ghost use Rattle.thr_base.specs.Number.{Fits};
ghost use Rattle.lin_rows.specs.Row.{Row};
ghost use Rattle.lin_rows.specs.Buffer.{rows_of};
ghost use Rattle.lin_rows.specs.inside.Stored.{IsStored};
ghost use Rattle.lin_rows.specs.System.{IsRowOver, with_row, with_rows};
ghost use Rattle.lin_rows.specs.View.{row_of, system_of};

use crate::row::RowView;
use crate::rows_view::RowsView;
use crate::stored::RightSide;
use std::alloc::{AllocError, Global};
use std::marker::Model;

/// A system of rows that grows.
#[derive(Debug, Drop)]
pub struct Rows {
    columns: u32,
    sides: Vec<RightSide>,
    /// The coefficients of all rows, one row behind the other.
    numbers: Vec<i128>,
}

impl Model for Rows {
    ghost use Rattle.lin_rows.specs.System.{System};

    ghost Value = { System };

    ghost use Rattle.lin_rows.specs.Buffer.{stored_system};
    ghost use Rattle.lin_rows.specs.inside.Stored.{IsHeld};

    ghost view = { λ inside. stored_system inside.columns inside.sides.items inside.numbers.items };

    ghost invariant = { λ inside. IsHeld inside.columns inside.sides.items inside.numbers.items };
}

impl Rows {
    pub fn new(alloc: Global, columns: u32) -> Rows
        ensures { result ≡ record { columns = columns; rows = [] } }
    {
        Rows {
            columns,
            sides: Vec::new(alloc),
            numbers: Vec::new(alloc),
        }
    }

    /// Appends rows, whose coefficients stand one row behind the other.
    fn append(&mut self, sides: &[RightSide], numbers: &[i128]) -> Result<(), AllocError>
        requires stored { IsStored self.old.columns sides.now numbers.now }
        requires room { length self.old.rows + length sides.now < 2 ^ 32 - 1 }
        ensures ok { OnOk result (self.new ≡ with_rows self.old (rows_of self.old.columns sides.now numbers.now)) }
        ensures err { OnErr result (self.new ≡ self.old) }
    {
        let before = self.sides.len();
        self.sides.extend_from_slice(sides)?;
        if self.numbers.extend_from_slice(numbers).is_err() {
            self.sides.truncate(before);
            return Err(AllocError);
        }
        Ok(())
    }

    /// Appends a row.
    pub fn push(
        &mut self,
        equal: bool,
        coefficients: &[i128],
        bound: i128,
    ) -> Result<(), AllocError>
        requires width { length coefficients.now ≡ self.old.columns }
        requires coefficients { AllByRecursion Fits coefficients.now }
        requires bound { Fits bound }
        requires room { length self.old.rows < 2 ^ 32 - 2 }
        ensures ok { let row : Row = record { equal = equal; coefficients = coefficients.now; bound = bound } in OnOk result (self.new ≡ with_row self.old row) }
        ensures err { OnErr result (self.new ≡ self.old) }
    {
        self.append(&[RightSide { equal, bound }], coefficients)
    }

    /// Appends a row of any system over as many columns.
    pub fn push_row(&mut self, row: &RowView<'_>) -> Result<(), AllocError>
        requires over { IsRowOver self.old.columns (row_of row.now) }
        requires room { length self.old.rows < 2 ^ 32 - 2 }
        ensures ok { OnOk result (self.new ≡ with_row self.old (row_of row.now)) }
        ensures err { OnErr result (self.new ≡ self.old) }
    {
        self.push(row.equal, row.coefficients, row.bound)
    }

    #[tactic(auto, unfolding(crate::specs::View::system_of))]
    /// Appends all rows of a system over as many columns.
    pub fn push_rows(&mut self, more: &RowsView<'_>) -> Result<(), AllocError>
        requires columns { (system_of more.now).columns ≡ self.old.columns }
        requires room { length self.old.rows + length (system_of more.now).rows < 2 ^ 32 - 1 }
        ensures ok { OnOk result (self.new ≡ with_rows self.old (system_of more.now).rows) }
        ensures err { OnErr result (self.new ≡ self.old) }
    {
        self.append(more.sides, more.numbers)
    }

    #[tactic(auto, unfolding(crate::specs::View::system_of))]
    pub fn view(&self) -> RowsView<'_>
        ensures { system_of result ≡ self.now }
    {
        RowsView {
            columns: self.columns,
            sides: self.sides.as_slice(),
            numbers: self.numbers.as_slice(),
        }
    }
}
