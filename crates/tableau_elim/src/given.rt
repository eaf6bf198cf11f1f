ghost use Rattle.std.specs.Prelude.{◌≡◌, ◌<◌, ◌++◌, ◌∷◌, [], pos, suc, Some, length, slice_get, map, IfOk, OnOk};
ghost use Rattle.std.specs.List.{range_with_len};
ghost use Rattle.lin_rows.specs.Row.{Row};
ghost use Rattle.farkas_cert.specs.NamedRows.{IsNamed};
ghost use Rattle.tableau_elim.specs.Tableau as specs;
ghost use Rattle.tableau_elim.specs.declared.variable.Variable.TheVariants.{Column};
ghost use Rattle.tableau_elim.specs.inside.Held.{tableau_of};

use crate::tableau::Tableau;
use crate::variable::{Slack, Variable};
use farkas_cert::NamedRows;
use std::alloc::{AllocError, Global};

/// The columns, each at its place.
fn columns_at_places(alloc: Global, columns: u32) -> Result<Vec<Variable>, AllocError>
    ensures { IfOk result (λ places. places.items ≡ map Column (range_with_len 0 columns)) }
{
    let mut places = Vec::with_capacity(alloc, columns as usize)?;
    'columns: for column in 0..columns {
        places.push(Variable::Column(column))?;
    }
    Ok(places)
}

/// Appends the divisor and the numbers of the line of the row at a place, and answers with the row's bound.
fn push_line(numbers: &mut Vec<i128>, rows: &NamedRows<'_>, place: u32) -> Result<i128, AllocError>
    requires named { IsNamed rows.now }
    requires within { place < length rows.now.rows }
    ensures numbers { OnOk result ((row : Row) → slice_get rows.now.rows place ≡ Some row → numbers.new.items ≡ numbers.old.items ++ pos 1 ∷ row.coefficients) }
    ensures bound { IfOk result (λ bound. (row : Row) → slice_get rows.now.rows place ≡ Some row → bound ≡ row.bound) }
{
    numbers.push(1)?;
    rows.push_numbers(numbers, place + 1)?;
    let last = numbers.len() - 1;
    let bound = numbers[last];
    numbers.truncate(last);
    Ok(bound)
}

/// The slack of the row at a place.
fn slack_of(rows: &NamedRows<'_>, place: u32, bound: i128) -> Variable
    requires named { IsNamed rows.now }
    requires within { place < length rows.now.rows }
    ensures { (row : Row) → slice_get rows.now.rows place ≡ Some row → result ≡ Variable.Slack (record { row = place; equal = row.equal; bound = bound }) }
{
    Variable::Slack(Slack {
        row: place,
        equal: rows.equality_of(place + 1).unwrap_or(false),
        bound,
    })
}

/// The tableau of the given rows.
pub fn given_tableau(alloc: Global, rows: &NamedRows<'_>) -> Result<Tableau, AllocError>
    ensures { IfOk result (λ tableau. tableau_of tableau ≡ specs.given_tableau rows.now) }
{
    let places = columns_at_places(alloc, rows.columns())?;
    let count = rows.count();
    let mut basics = Vec::with_capacity(alloc, count as usize)?;
    let mut numbers = Vec::new(alloc);
    'rows: for place in 0..count {
        let bound = push_line(&mut numbers, rows, place)?;
        basics.push(slack_of(rows, place, bound))?;
    }
    Ok(Tableau {
        basics,
        numbers,
        places,
    })
}
