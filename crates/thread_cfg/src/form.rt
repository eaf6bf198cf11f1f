//! The lines of expressions, worth what they are behind events.

ghost use Rattle.std.specs.Prelude.{◌≡◌, length, map, option_map, IfOk};
ghost use Rattle.std.specs.List.{AllByRecursion};
ghost use Rattle.transition_formula.specs.Program.{IsFormOver};
ghost use Rattle.transition_formula.specs.Forms.{fitting_composition};
ghost use Rattle.transition_formula.specs.Stored.{form_of};
ghost use Rattle.thread_cfg.specs.inside.Machine.{ExpressionWithin, computed, operations_of};
ghost use Rattle.thread_cfg.specs.inside.Meant.{frame_of};
ghost use Rattle.thread_cfg.specs.inside.Seen.{form_seen};

use crate::event::Expression;
use crate::frame::Frame;
use crate::stack::line_of_operations;
use std::alloc::{AllocError, Global};
use transition_formula::Line;

/// How many columns there are, how many columns and inputs, and the thread.
#[derive(Clone, Copy, Debug)]
pub(crate) struct Setting {
    pub(crate) columns: u32,
    pub(crate) width: u32,
    pub(crate) frame: Frame,
}

/// The line of an expression over the columns, where each product and sum fits.
fn line_of(
    alloc: Global,
    setting: Setting,
    expression: &Expression<'_>,
) -> Result<Option<Line>, AllocError>
    requires { ExpressionWithin setting.columns (frame_of setting.frame) expression.now }
    ensures { IfOk result (λ made. option_map form_of made ≡ computed setting.columns (frame_of setting.frame) (operations_of expression.now)) }
{
    let columns = setting.columns;
    let frame = &setting.frame;
    match expression {
        Expression::Number(number) => Line::constant_if_fits(alloc, columns, *number),
        Expression::Value(variable) => {
            let line = Line::column(alloc, columns, frame.column(*variable))?;
            Ok(Some(line))
        }
        Expression::Whole(operations) => {
            line_of_operations(alloc, columns, frame, operations, None)
        }
        Expression::Cut(operations, next) => {
            line_of_operations(alloc, columns, frame, operations, Some(*next))
        }
    }
}

/// The line where each column is worth one of these lines.
fn compose(
    alloc: Global,
    width: u32,
    line: &Line,
    lines: &[Line],
) -> Result<Option<Line>, AllocError>
    requires one_each { length lines.now ≡ length (form_of line.now).coefficients }
    requires widths { AllByRecursion (λ form. length form.coefficients ≡ width) (map form_of lines.now) }
    ensures { IfOk result (λ made. option_map form_of made ≡ fitting_composition width (form_of line.now) (map form_of lines.now)) }
{
    line.compose(alloc, width, lines)
}

/// The line of an expression where each column is worth one of these lines: first over the columns, which are then replaced.
pub(crate) fn line_along(
    alloc: Global,
    setting: Setting,
    lines: &[Line],
    expression: &Expression<'_>,
) -> Result<Option<Line>, AllocError>
    requires within { ExpressionWithin setting.columns (frame_of setting.frame) expression.now }
    requires one_each { length (map form_of lines.now) ≡ setting.columns }
    requires over { AllByRecursion (IsFormOver setting.width) (map form_of lines.now) }
    ensures { IfOk result (λ made. option_map form_of made ≡ form_seen setting.width setting.columns (frame_of setting.frame) (map form_of lines.now) expression.now) }
{
    let line = line_of(alloc, setting, expression)?;
    match line {
        Some(line) => compose(alloc, setting.width, &line, lines),
        None => Ok(None),
    }
}
