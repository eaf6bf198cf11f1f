ghost use Rattle.std.specs.Prelude.{◌≡◌, pos, ◌*ℤ◌, ◌≤◌, Some, IsSome};
ghost use Rattle.farkas_cert.specs.Cert.{InOrder, row_numbered};
ghost use Rattle.farkas_cert.specs.Proof.{products};
ghost use Rattle.farkas_cert.specs.inside.Columns.{sum_with, column_from, earlier, number_at};
ghost use Rattle.farkas_cert.specs.inside.Weighing.{weighed_with, weighed_to, answer_of_weights};
ghost use Rattle.farkas_cert.specs.Answer.{IsCertAnswer};

use crate::answers::CertAnswer;
use crate::named_rows::NamedRows;
use lin_rows::{product_if_fits, sum_if_fits};

/// The sum of a column with one more product, where both fit.
fn add_product(rows: &NamedRows<'_>, pair: (u32, i128), column: u32, sum: i128) -> Option<i128>
    requires there { IsSome (row_numbered rows.now.rows pair.0) }
    requires within { column ≤ rows.now.columns }
    ensures { result ≡ sum_with sum (pair.1 *ℤ number_at (row_numbered rows.now.rows pair.0) column) }
{
    let (row, multiplier) = pair;
    let product = product_if_fits(multiplier, rows.number_at(row, column))?;
    sum_if_fits(product, sum)
}

/// The sum of a column, or the first row at which a product or the sum up to it does not fit.
pub fn column_sum(rows: &NamedRows<'_>, cert: &[(u32, i128)], column: u32) -> Result<i128, u32>
    requires in_order { InOrder rows.now.rows 0 cert.now }
    requires within { column ≤ rows.now.columns }
    ensures { result ≡ column_from (pos 0) column (products rows.now.rows cert.now) }
{
    let mut sum = 0;
    'pairs: for pair in cert {
        match add_product(rows, *pair, column, sum) {
            Some(more) => sum = more,
            None => return Err(pair.0),
        }
    }
    Ok(sum)
}

/// What is known of some columns: the first product or sum that does not fit, and whether every sum is 0.
#[derive(Clone, Copy, Debug)]
pub struct Weighed {
    overflow: Option<(u32, u32)>,
    cancels: bool,
}

/// Of two overflows the one at the earlier row, or the first where both are at one row.
fn earlier(first: Option<(u32, u32)>, row: u32, column: u32) -> (u32, u32)
    ensures { Some result ≡ earlier first row column }
{
    match first {
        Some(first) if first.0 <= row => first,
        _ => (row, column),
    }
}

/// What is known with one more column.
fn with_column(seen: Weighed, column: u32, sum: Result<i128, u32>) -> Weighed
    ensures { result ≡ weighed_with seen column sum }
{
    match sum {
        Ok(sum) => Weighed {
            overflow: seen.overflow,
            cancels: seen.cancels && sum == 0,
        },
        Err(row) => Weighed {
            overflow: Some(earlier(seen.overflow, row, column)),
            cancels: seen.cancels,
        },
    }
}

/// What is known of all columns but the bound's.
fn coefficients_weighed(rows: &NamedRows<'_>, cert: &[(u32, i128)]) -> Weighed
    requires { InOrder rows.now.rows 0 cert.now }
    ensures { result ≡ weighed_to rows.now.columns (products rows.now.rows cert.now) }
{
    let mut seen = Weighed {
        overflow: None,
        cancels: true,
    };
    for column in 0..rows.columns() {
        seen = with_column(seen, column, column_sum(rows, cert, column));
    }
    seen
}

/// The answer, from what is known of the coefficients and the sum of the bounds.
fn answer_by(seen: Weighed, columns: u32, bound: Result<i128, u32>) -> CertAnswer
    ensures { result ≡ answer_of_weights seen columns bound }
{
    match (with_column(seen, columns, bound).overflow, bound) {
        (Some((row, column)), _) => CertAnswer::Overflow { row, column },
        (None, Ok(bound)) if seen.cancels && bound < 0 => CertAnswer::Proves,
        _ => CertAnswer::Fails,
    }
}

/// What the weighted rows of a certificate in order say.
pub fn weigh(rows: &NamedRows<'_>, cert: &[(u32, i128)]) -> CertAnswer
    requires { InOrder rows.now.rows 0 cert.now }
    ensures { IsCertAnswer rows.now cert.now result }
{
    let seen = coefficients_weighed(rows, cert);
    let columns = rows.columns();
    answer_by(seen, columns, column_sum(rows, cert, columns))
}
