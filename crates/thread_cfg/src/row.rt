//! The rows of relations between lines.

ghost use Rattle.std.specs.Prelude.{◌≡◌, pos, negsuc, neg_ℤ, length, map, option_and_then, option_map, IfOk};
ghost use Rattle.std.specs.List.{AllByRecursion};
ghost use Rattle.lin_rows.specs.Exact.{fitting};
ghost use Rattle.transition_formula.specs.Program.{IsFormOver};
ghost use Rattle.transition_formula.specs.Forms.{fitting_difference};
ghost use Rattle.transition_formula.specs.Stored.{form_of};
ghost use Rattle.thread_cfg.specs.Edge as specs;
ghost use Rattle.thread_cfg.specs.inside.Machine.{ExpressionWithin};
ghost use Rattle.thread_cfg.specs.inside.Meant.{frame_of};
ghost use Rattle.thread_cfg.specs.inside.Seen.{made_row_of, row_seen};

use crate::event::Expression;
use crate::form::{Setting, line_along};
use crate::relation::Relation;
use lin_rows::difference_if_fits;
use std::alloc::{AllocError, Global};
use transition_formula::Line;

/// `coefficients . z <= bound`, or `=` where `equal`.
#[derive(Debug, Drop)]
pub(crate) struct MadeRow {
    pub(crate) equal: bool,
    pub(crate) coefficients: Vec<i128>,
    pub(crate) bound: i128,
}

/// The number with the other sign, where that fits.
fn opposite_if_fits(number: i128) -> Option<i128>
    ensures { result ≡ fitting (neg_ℤ number) }
{
    difference_if_fits(0, number)
}

/// The row that the line is at most 0, or is 0: its constant goes to the right.
fn row_of_line(equal: bool, line: Line) -> Option<MadeRow>
    ensures { option_map made_row_of result ≡ specs.moved equal (form_of line) }
{
    match opposite_if_fits(line.constant) {
        Some(bound) => Some(MadeRow {
            equal,
            coefficients: line.coefficients,
            bound,
        }),
        None => None,
    }
}

/// The row that one line is at most the other, or is the other.
fn row_between(
    alloc: Global,
    equal: bool,
    left: &Line,
    right: &Line,
) -> Result<Option<MadeRow>, AllocError>
    requires { length (form_of left.now).coefficients ≡ length (form_of right.now).coefficients }
    ensures { IfOk result (λ made. option_map made_row_of made ≡ option_and_then (specs.moved equal) (fitting_difference (form_of left.now) (form_of right.now))) }
{
    let line = left.minus(alloc, right)?;
    match line {
        Some(line) => Ok(row_of_line(equal, line)),
        None => Ok(None),
    }
}

/// The line and a number more.
fn line_and_number(
    alloc: Global,
    number: i128,
    width: u32,
    line: &Line,
) -> Result<Option<Line>, AllocError>
    requires { length (form_of line.now).coefficients ≡ width }
    ensures { IfOk result (λ made. option_map form_of made ≡ specs.raised number width (form_of line.now)) }
{
    let more = Line::constant(alloc, width, number)?;
    line.plus(alloc, &more)
}

/// The row of a relation: one is added or taken off first, and then the difference is made.
fn row_by(
    alloc: Global,
    width: u32,
    relation: Relation,
    left: &Line,
    right: &Line,
) -> Result<Option<MadeRow>, AllocError>
    requires left { IsFormOver width (form_of left.now) }
    requires right { IsFormOver width (form_of right.now) }
    ensures { IfOk result (λ made. option_map made_row_of made ≡ specs.row_by width relation (form_of left.now) (form_of right.now)) }
{
    match relation {
        Relation::Equal => row_between(alloc, true, left, right),
        Relation::Less => {
            let less = line_and_number(alloc, -1, width, right)?;
            match less {
                Some(less) => row_between(alloc, false, left, &less),
                None => Ok(None),
            }
        }
        Relation::Greater => {
            let more = line_and_number(alloc, 1, width, right)?;
            match more {
                Some(more) => row_between(alloc, false, &more, left),
                None => Ok(None),
            }
        }
        Relation::AtMost => row_between(alloc, false, left, right),
        Relation::AtLeast => row_between(alloc, false, right, left),
    }
}

/// The row of a relation between expressions where each column is worth one of these lines.
pub(crate) fn row_along(
    alloc: Global,
    setting: Setting,
    lines: &[Line],
    relation: Relation,
    left: &Expression<'_>,
    right: &Expression<'_>,
) -> Result<Option<MadeRow>, AllocError>
    requires left { ExpressionWithin setting.columns (frame_of setting.frame) left.now }
    requires right { ExpressionWithin setting.columns (frame_of setting.frame) right.now }
    requires one_each { length (map form_of lines.now) ≡ setting.columns }
    requires over { AllByRecursion (IsFormOver setting.width) (map form_of lines.now) }
    ensures { IfOk result (λ made. option_map made_row_of made ≡ row_seen setting.width setting.columns (frame_of setting.frame) (map form_of lines.now) relation left.now right.now) }
{
    let one = line_along(alloc, setting, lines, left)?;
    let other = line_along(alloc, setting, lines, right)?;
    match (one, other) {
        (Some(one), Some(other)) => row_by(alloc, setting.width, relation, &one, &other),
        _ => Ok(None),
    }
}
