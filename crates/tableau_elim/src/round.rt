ghost use Rattle.std.specs.Prelude.{◌≡◌, ◌<◌, map, length, drop, None, IfOk};
ghost use Rattle.lin_rows.specs.System.{HasWidths};
ghost use Rattle.tableau_elim.specs.Tableau as tableau_specs;
ghost use Rattle.tableau_elim.specs.Rounds as specs;
ghost use Rattle.tableau_elim.specs.Rounds.{Outcome};
ghost use Rattle.tableau_elim.specs.declared.standing.Side.{Side};
ghost use Rattle.tableau_elim.specs.declared.standing.Standing.{Standing};
ghost use Rattle.tableau_elim.specs.inside.Held.{tableau_of, found_of, IsForPivot};
ghost use Rattle.tableau_elim.specs.inside.Lines.{line_at};

use crate::looking::{first_out, standing_of, values_at_places};
use crate::place::chosen_place;
use crate::point::point_of;
use crate::refuting::refutation;
use crate::standing::{Side, Standing};
use crate::tableau::Tableau;
use crate::tried::Tried;
use farkas_cert::NamedRows;
use std::alloc::{AllocError, Global};

/// What a round comes to: an end, or a line and a place for a pivot.
#[derive(Debug, Drop)]
pub enum Found {
    Ends(Tried),
    Pivots(usize, usize),
}

/// A line that is out is mended by a pivot, or refutes.
fn mended_by_place(
    alloc: Global,
    rows: &NamedRows<'_>,
    tableau: &Tableau,
    line: usize,
    side: Side,
) -> Result<Found, AllocError>
    requires within { line < length tableau.now.basics.items }
    requires widths { HasWidths rows.now }
    requires leads { let at = line_at line (tableau_of tableau.now) in specs.chosen_place side tableau.now.places.items (drop 1 at.numbers) ≡ None → specs.outcome_of rows.now ≡ specs.refuted_outcome rows.now side tableau.now.places.items at }
    ensures found { let at = line_at line (tableau_of tableau.now) in IfOk result (λ found. found_of (tableau_of tableau.now) found ≡ specs.found_by_place rows.now side tableau.now.places.items at (specs.chosen_place side tableau.now.places.items (drop 1 at.numbers))) }
    ensures place { IfOk result (IsForPivot tableau.now) }
{
    let numbers = tableau.numbers_of(line);
    match chosen_place(side, tableau.places.as_slice(), &numbers[1..]) {
        Some(place) => Ok(Found::Pivots(line, place)),
        None => {
            let tried = refutation(alloc, rows, side, tableau, line)?;
            Ok(Found::Ends(tried))
        }
    }
}

/// A line that is not within is mended or refutes, unless a number does not fit.
fn mended_by_standing(
    alloc: Global,
    rows: &NamedRows<'_>,
    tableau: &Tableau,
    line: usize,
    standing: Standing,
) -> Result<Found, AllocError>
    requires within { line < length tableau.now.basics.items }
    requires widths { HasWidths rows.now }
    requires leads { let at = line_at line (tableau_of tableau.now) in (side : Side) → standing ≡ Standing.Out side → specs.chosen_place side tableau.now.places.items (drop 1 at.numbers) ≡ None → specs.outcome_of rows.now ≡ specs.refuted_outcome rows.now side tableau.now.places.items at }
    ensures found { let at = line_at line (tableau_of tableau.now) in IfOk result (λ found. found_of (tableau_of tableau.now) found ≡ specs.found_by_standing rows.now tableau.now.places.items at standing) }
    ensures place { IfOk result (IsForPivot tableau.now) }
{
    match standing {
        Standing::Within | Standing::Unfit => Ok(Found::Ends(Tried::GaveUp)),
        Standing::Out(side) => mended_by_place(alloc, rows, tableau, line, side),
    }
}

/// A round: the point, where no line is out, and else what the first such line comes to.
pub fn round(alloc: Global, rows: &NamedRows<'_>, tableau: &Tableau) -> Result<Found, AllocError>
    requires widths { HasWidths rows.now }
    requires leads { (outcome : Outcome) → specs.round_of rows.now (tableau_of tableau.now) ≡ specs.Ends outcome → specs.outcome_of rows.now ≡ outcome }
    ensures found { IfOk result (λ found. found_of (tableau_of tableau.now) found ≡ specs.round_of rows.now (tableau_of tableau.now)) }
    ensures place { IfOk result (IsForPivot tableau.now) }
{
    let values = values_at_places(alloc, tableau.places.as_slice())?;
    match first_out(tableau, values.as_slice()) {
        Some(line) => {
            let standing = standing_of(tableau, values.as_slice(), line);
            mended_by_standing(alloc, rows, tableau, line, standing)
        }
        None => {
            let tried = point_of(alloc, tableau, values.as_slice(), rows.columns())?;
            Ok(Found::Ends(tried))
        }
    }
}
