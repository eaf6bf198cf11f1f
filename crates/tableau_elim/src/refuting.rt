ghost use Rattle.std.specs.Prelude.{◌≡◌, ◌<◌, ◌-◌, ◌^◌, drop, length, replicate, pos, slice_set, IfOk};
ghost use Rattle.std.specs.List.{AllByRecursion};
ghost use Rattle.thr_base.specs.Number.{Fits};
ghost use Rattle.lin_rows.specs.System.{HasWidths};
ghost use Rattle.farkas_cert.specs.Divided.{divided_numbers};
ghost use Rattle.farkas_cert.specs.Line.{nonzero_pairs};
ghost use Rattle.tableau_elim.specs.Tableau.{divisor_of};
ghost use Rattle.tableau_elim.specs.Rounds as specs;
ghost use Rattle.tableau_elim.specs.Decision.{outcome_in};
ghost use Rattle.tableau_elim.specs.inside.Held.{tableau_of};
ghost use Rattle.tableau_elim.specs.inside.Lines.{line_at};

use crate::numbers::turn;
use crate::standing::Side;
use crate::tableau::Tableau;
use crate::tried::Tried;
use crate::variable::Variable;
use farkas_cert::{Cert, CertAnswer, NamedRows, check_named, divide};
use lin_rows::opposite;
use std::alloc::{AllocError, Global};

/// Sets a number, where there is such a place.
fn set_at(numbers: &mut [i128], place: usize, number: i128)
    ensures { numbers.new ≡ slice_set numbers.old place number }
{
    if place < numbers.len() {
        numbers[place] = number;
    }
}

/// Sets the multiplier of a slack's row.
fn set_multiplier(multipliers: &mut [i128], variable: &Variable, multiplier: i128)
    ensures { multipliers.new ≡ specs.with_multiplier variable.now multiplier multipliers.old }
{
    match variable {
        Variable::Column(_) => {}
        Variable::Slack(slack) => set_at(multipliers, slack.row as usize, multiplier),
    }
}

/// Sets the multipliers of the rows of the slacks at the places.
fn set_for_places(multipliers: &mut [i128], places: &[Variable], numbers: &[i128])
    requires width { length numbers.now ≡ length places.now }
    requires fit { AllByRecursion Fits numbers.now }
    ensures { multipliers.new ≡ specs.with_places places.now numbers.now multipliers.old }
{
    'places: for place in 0..places.len() {
        set_multiplier(multipliers, &places[place], opposite(numbers[place]));
    }
}

/// Gives all multipliers the sign that the side asks for.
fn sign(multipliers: &mut [i128], side: Side)
    requires { AllByRecursion Fits multipliers.old }
    ensures { multipliers.new ≡ specs.signed_multipliers side multipliers.old }
{
    match side {
        Side::High => {}
        Side::Low => turn(multipliers, 1),
    }
}

/// Sets all multipliers of a line, but for their sign.
fn set_all(multipliers: &mut [i128], tableau: &Tableau, line: usize)
    requires { line < length tableau.now.basics.items }
    ensures { let at = line_at line (tableau_of tableau.now) in multipliers.new ≡ specs.with_places tableau.now.places.items (drop 1 at.numbers) (specs.with_multiplier at.basic (divisor_of at) multipliers.old) }
{
    set_multiplier(
        multipliers,
        &tableau.basic_of(line),
        tableau.divisor_of(line),
    );
    set_for_places(
        multipliers,
        tableau.places.as_slice(),
        &tableau.numbers_of(line)[1..],
    );
}

/// Makes the multipliers by which a line refutes of zeros.
fn weigh(multipliers: &mut [i128], side: Side, tableau: &Tableau, line: usize)
    requires within { line < length tableau.now.basics.items }
    requires zeros { multipliers.old ≡ replicate (length multipliers.old) (pos 0) }
    ensures { multipliers.new ≡ divided_numbers (specs.multipliers side (length multipliers.old) tableau.now.places.items (line_at line (tableau_of tableau.now))) }
{
    set_all(multipliers, tableau, line);
    sign(multipliers, side);
    divide(multipliers);
}

/// The certificate of a line that no place can mend.
fn certificate(
    alloc: Global,
    side: Side,
    rows: u32,
    tableau: &Tableau,
    line: usize,
) -> Result<Cert, AllocError>
    requires { line < length tableau.now.basics.items }
    ensures { IfOk result (λ cert. cert ≡ nonzero_pairs 1 (divided_numbers (specs.multipliers side rows tableau.now.places.items (line_at line (tableau_of tableau.now))))) }
{
    let mut multipliers = vec![in alloc; 0; rows as usize]?;
    weigh(&mut multipliers, side, tableau, line);
    let cert = Cert::of_multipliers(alloc, multipliers.as_slice())?;
    Ok(cert)
}

/// The answer where a line refutes the rows, by the check of the products and sums of its certificate.
pub fn refutation(
    alloc: Global,
    rows: &NamedRows<'_>,
    side: Side,
    tableau: &Tableau,
    line: usize,
) -> Result<Tried, AllocError>
    requires within { line < length tableau.now.basics.items }
    requires widths { HasWidths rows.now }
    requires leads { specs.outcome_of rows.now ≡ specs.refuted_outcome rows.now side tableau.now.places.items (line_at line (tableau_of tableau.now)) }
    ensures { IfOk result (λ tried. outcome_in tried ≡ specs.outcome_of rows.now) }
{
    let cert = certificate(alloc, side, rows.count(), tableau, line)?;
    match check_named(rows, cert.pairs()) {
        CertAnswer::Proves => Ok(Tried::Refuted(cert)),
        CertAnswer::Fails | CertAnswer::Overflow { .. } => Ok(Tried::GaveUp),
    }
}
