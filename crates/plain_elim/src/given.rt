ghost use Rattle.std.specs.Prelude.{◌≡◌, ◌<◌, IfOk, Some, length, slice_get};
ghost use Rattle.std.specs.List.{AllByRecursion};
ghost use Rattle.lin_rows.specs.Row.{Row};
ghost use Rattle.farkas_cert.specs.NamedRows.{IsNamed};
ghost use Rattle.farkas_cert.specs.Line as specs;
ghost use Rattle.plain_elim.specs.inside.Stages.{IsWide};

use crate::line::Line;
use farkas_cert::NamedRows;
use std::alloc::{AllocError, Global};

/// The numbers of the line of the row at a place.
fn given_numbers(alloc: Global, rows: &NamedRows<'_>, place: u32) -> Result<Vec<i128>, AllocError>
    requires { place < length rows.now.rows }
    ensures { IfOk result (λ numbers. (row : Row) → slice_get rows.now.rows place ≡ Some row → numbers.items ≡ (specs.given_line (length rows.now.rows) place row).numbers) }
{
    let first = rows.columns() as usize + 1;
    let total = rows.count() as usize;
    let mut numbers = Vec::with_capacity(alloc, first + total)?;
    rows.push_numbers(&mut numbers, place + 1)?;
    numbers.resize(first + total, 0)?;
    numbers[first + place as usize] = 1;
    Ok(numbers)
}

/// The line of the row at a place.
fn given_line(alloc: Global, rows: &NamedRows<'_>, place: u32) -> Result<Line, AllocError>
    requires named { IsNamed rows.now }
    requires within { place < length rows.now.rows }
    ensures { IfOk result (λ line. (row : Row) → slice_get rows.now.rows place ≡ Some row → line ≡ specs.given_line (length rows.now.rows) place row) }
{
    let numbers = given_numbers(alloc, rows, place)?;
    let equal = rows.equality_of(place + 1).unwrap_or(false);
    Ok(Line::of(equal, numbers))
}

/// The lines of all given rows.
pub fn given_lines(alloc: Global, rows: &NamedRows<'_>) -> Result<Vec<Line>, AllocError>
    ensures lines { IfOk result (λ lines. lines.items ≡ specs.given_lines (length rows.now.rows) 0 rows.now.rows) }
    ensures wide { IfOk result (λ lines. AllByRecursion (IsWide rows.now) lines.items) }
{
    let total = rows.count();
    let mut lines = Vec::with_capacity(alloc, total as usize)?;
    'rows: for place in 0..total {
        let line = given_line(alloc, rows, place)?;
        lines.push(line)?;
    }
    Ok(lines)
}
