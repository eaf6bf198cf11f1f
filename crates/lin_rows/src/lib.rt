//! Rows of linear constraints over whole numbers: lists of rows, atoms, normal forms and negations, exact
//! over unbounded integers. The layers above learn that what they hold has one coefficient per column and
//! numbers that fit, and at which whole points a row, its normal form and a negation hold.
#![tactic(auto)]

mod atom;
mod divisor;
mod exact;
mod laws;
mod normal_form;
mod number_list;
mod row;
mod rows;
mod rows_view;
mod stored;
mod sum;

pub use atom::{Atom, negate, opposite, opposites_of, push_opposites};
pub use divisor::{divisor_of, floor_of, multiple_if_fits};
pub use exact::{difference_if_fits, product_if_fits, sum_if_fits};
pub use laws::{
    divisors_are_greatest, multiples_are_least, parts_of_systems, sums_are_given_where_they_fit,
};
pub use normal_form::{NormalForm, NormalStop, normal};
pub use number_list::NumberList;
pub use row::RowView;
pub use rows::Rows;
pub use rows_view::RowsView;
pub use sum::sum_of_products;

#[cfg(test)]
mod tests;
