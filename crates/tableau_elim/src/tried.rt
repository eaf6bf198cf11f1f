ghost use Rattle.std.specs.Prelude.{◌≡◌, ◌+◌, ◌*◌, length, IfOk};
ghost use Rattle.lin_rows.specs.System.{HasWidths};
ghost use Rattle.lin_rows.specs.View.{system_of};
ghost use Rattle.tableau_elim.specs.Tableau.{given_tableau};
ghost use Rattle.tableau_elim.specs.Rounds as specs;
ghost use Rattle.tableau_elim.specs.Decision.{outcome_in, IsEvidence};
ghost use Rattle.tableau_elim.specs.inside.Held.{tableau_of};

use crate::given::given_tableau;
use crate::round::{Found, round};
use crate::tableau::Tableau;
use farkas_cert::{Cert, NamedRows};
use lin_rows::{NumberList, RowsView};
use std::alloc::{AllocError, Global};

/// What the tableau finds of a system: a certificate that refutes it, or the numerators of a point and their one denominator.
#[derive(Debug, Drop)]
pub enum Tried {
    Refuted(Cert),
    Point(NumberList, i128),
    GaveUp,
}

/// The answer after the last pivot that may be made.
fn last_round(alloc: Global, rows: &NamedRows<'_>, tableau: &Tableau) -> Result<Tried, AllocError>
    requires widths { HasWidths rows.now }
    requires leads { specs.outcome_of rows.now ≡ specs.outcome_after 0 rows.now (tableau_of tableau.now) }
    ensures { IfOk result (λ tried. outcome_in tried ≡ specs.outcome_of rows.now) }
{
    let found = round(alloc, rows, tableau)?;
    match found {
        Found::Ends(tried) => Ok(tried),
        Found::Pivots(_, _) => Ok(Tried::GaveUp),
    }
}

/// Rounds with a pivot each until one ends, at most as many as may be made.
fn rounds(
    alloc: Global,
    rows: &NamedRows<'_>,
    limit: u64,
    first: Tableau,
) -> Result<Tried, AllocError>
    requires widths { HasWidths rows.now }
    requires leads { specs.outcome_of rows.now ≡ specs.outcome_after limit rows.now (tableau_of first) }
    ensures { IfOk result (λ tried. outcome_in tried ≡ specs.outcome_of rows.now) }
{
    let mut tableau = first;
    'pivots: for made in 0..limit {
        let found = round(alloc, rows, &tableau)?;
        match found {
            Found::Ends(tried) => return Ok(tried),
            Found::Pivots(line, place) => {
                let next = tableau.after_pivot(alloc, line, place)?;
                match next {
                    Some(next) => tableau = next,
                    None => return Ok(Tried::GaveUp),
                }
            }
        }
    }
    last_round(alloc, rows, &tableau)
}

/// What the tableau of the rows that a certificate can name comes to: those of a system, or these and the negation of an atom.
#[tactic(auto, unfolding(crate::specs::Rounds::outcome_of))]
pub fn try_decide_named(alloc: Global, rows: &NamedRows<'_>) -> Result<Tried, AllocError>
    ensures outcome { IfOk result (λ tried. outcome_in tried ≡ specs.outcome_of rows.now) }
    ensures evidence { IfOk result (IsEvidence rows.now) }
{
    let limit = 4 * (u64::from(rows.count()) + u64::from(rows.columns()));
    let tableau = given_tableau(alloc, rows)?;
    rounds(alloc, rows, limit, tableau)
}

/// What the tableau of the rows comes to: a certificate, a point, or that it gave up.
pub fn try_decide(alloc: Global, rows: &RowsView<'_>) -> Result<Tried, AllocError>
    ensures outcome { IfOk result (λ tried. outcome_in tried ≡ specs.outcome_of (system_of rows.now)) }
    ensures evidence { IfOk result (IsEvidence (system_of rows.now)) }
{
    try_decide_named(alloc, &NamedRows::of(rows))
}
