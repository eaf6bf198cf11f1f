ghost use Rattle.std.specs.Prelude.{◌≡◌, ◌-◌, ◌^◌, ◌<◌, [], length, IfOk, OnOk};
ghost use Rattle.transition_formula.specs.Program.{StartFits};
ghost use Rattle.lin_rows.specs.System.{with_rows};
ghost use Rattle.transition_formula.specs.Rows.{start_row, init_system};

use crate::edges::push_column_is;
use crate::program::Program;
use lin_rows::Rows;
use std::alloc::{AllocError, Global};

/// Appends the row of a column that has a start.
fn push_start(
    rows: &mut Rows,
    row: &mut Vec<i128>,
    column: u32,
    start: Option<i128>,
) -> Result<(), AllocError>
    requires within { column < rows.old.columns }
    requires fits { StartFits start }
    requires room { length rows.old.rows < 2 ^ 32 - 2 }
    ensures { OnOk result (rows.new ≡ with_rows rows.old (start_row rows.old.columns column start [])) }
{
    match start {
        Some(start) => push_column_is(rows, row, column, start),
        None => Ok(()),
    }
}

/// The rows of the initial states, over the columns: each column that has a start is there.
pub fn init_rows(alloc: Global, program: &Program) -> Result<Rows, AllocError>
    ensures { IfOk result (λ rows. rows ≡ init_system program.now) }
{
    let columns = program.columns();
    let mut rows = Rows::new(alloc, columns);
    let mut row = Vec::with_capacity(alloc, columns as usize)?;
    'columns: for column in 0..columns {
        let start = program.column(column).start;
        push_start(&mut rows, &mut row, column, start)?;
    }
    Ok(rows)
}
