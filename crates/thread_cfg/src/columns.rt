//! The columns of a program.

ghost use Rattle.std.specs.Prelude.{◌≡◌, map, length, filter, IfOk};
ghost use Rattle.c_check.specs.WellFormed.{is_variable};
ghost use Rattle.transition_formula.specs.Stored.{column_of};
ghost use Rattle.thread_cfg.specs.Graph.{program_column};

use c_check::ColumnKind;
use std::alloc::{AllocError, Global};
use transition_formula::Column;

/// A column of a plan, as one of a program.
fn program_column(alloc: Global, column: &c_check::Column) -> Result<Column, AllocError>
    ensures { IfOk result (λ made. column_of made ≡ program_column column.now) }
{
    Ok(Column {
        text: Vec::from_slice(alloc, column.text.as_slice())?,
        owner: column.owner,
        start: column.start,
    })
}

/// The columns of a plan, as those of a program.
pub(crate) fn program_columns(
    alloc: Global,
    columns: &[c_check::Column],
) -> Result<Vec<Column>, AllocError>
    ensures { IfOk result (λ made. map column_of made.items ≡ map program_column columns.now) }
{
    let mut made = Vec::new(alloc);
    for column in columns {
        made.push(program_column(alloc, column)?)?;
    }
    Ok(made)
}

/// Whether the column is one of a variable that all threads share.
fn is_variable(kind: ColumnKind) -> bool
    ensures { result ≡ is_variable kind }
{
    match kind {
        ColumnKind::Variable => true,
        ColumnKind::Lock => false,
        ColumnKind::Local => false,
        ColumnKind::Temporary => false,
        ColumnKind::Counter => false,
    }
}

/// How many variables all threads share.
pub(crate) fn variable_count(columns: &[c_check::Column]) -> usize
    ensures { result ≡ length (filter (λ c. is_variable c.kind) columns.now) }
{
    columns
        .iter()
        .filter(|column| is_variable(column.kind))
        .count()
}
