ghost use Rattle.std.specs.Prelude.{◌≡◌, pos, ◌*ℤ◌, ◌<◌, ◌≤ℤ◌, ◌<ℤ◌, ◌^◌, ◌↔◌, length, slice_index_or, None, Some, IfOk, IfErr, IsTrue, MatchBool};
ghost use Rattle.lin_rows.specs.System.{IsRationalPoint};
ghost use Rattle.lin_rows.specs.View.{row_of, system_of};
ghost use Rattle.farkas_cert.specs.Answer.{IsPointAnswer};
ghost use Rattle.farkas_cert.specs.inside.RowAnswer.{IsRowAnswer};

use crate::answers::PointAnswer;
use lin_rows::{RowView, RowsView, product_if_fits, sum_of_products};

/// What is found of one row.
#[derive(Clone, Copy)]
enum RowAnswer {
    Passes,
    Breaks,
    Overflow(u32),
}

fn holds(equal: bool, sum: i128, bound: i128) -> bool
    ensures { IsTrue result ↔ MatchBool equal (sum ≡ bound) (sum ≤ℤ bound) }
{
    if equal { sum == bound } else { sum <= bound }
}

fn row_answer(row: &RowView<'_>, x: &[i128], d: i128) -> RowAnswer
    requires lengths { length row.now.coefficients.now ≡ length x.now }
    requires small { length row.now.coefficients.now < 2 ^ 32 }
    ensures { IsRowAnswer x.now d (row_of row.now) result }
{
    let sum = match sum_of_products(row.coefficients, x) {
        Ok(sum) => sum,
        Err(column) => return RowAnswer::Overflow(column),
    };
    let Some(bound) = product_if_fits(row.bound, d) else {
        return RowAnswer::Overflow(row.coefficients.len() as u32);
    };
    if holds(row.equal, sum, bound) {
        RowAnswer::Passes
    } else {
        RowAnswer::Breaks
    }
}

/// Whether `x / d` is a point of the rows, by products and sums that fit.
pub fn check_point(rows: &RowsView<'_>, x: &[i128], d: i128) -> PointAnswer
    requires whole { length x.now ≡ (system_of rows.now).columns }
    requires positive { pos 0 <ℤ d }
    ensures answer { IsPointAnswer (system_of rows.now) x.now d result }
    ensures point { result ≡ PointAnswer.Meets → IsRationalPoint (system_of rows.now) x.now d }
{
    'rows: for place in 0..rows.count() {
        match row_answer(&rows.row(place), x, d) {
            RowAnswer::Passes => {}
            RowAnswer::Breaks => return PointAnswer::Fails { row: place + 1 },
            RowAnswer::Overflow(column) => {
                return PointAnswer::Overflow {
                    row: place + 1,
                    column,
                };
            }
        }
    }
    PointAnswer::Meets
}
