//! What is known along events: each column as a line over the columns before and the inputs, and the rows that were asked.

ghost use Rattle.std.specs.Prelude.{◌≡◌, ◌+◌, ◌<◌, ◌≤◌, ◌^◌, ◌∷◌, [], ◌||◌, false, length, map, slice_set, Ok, IfOk, OnOk};
ghost use Rattle.std.specs.List.{AllByRecursion, range_with_len};
ghost use Rattle.thr_base.specs.Limits.{most_tests};
ghost use Rattle.lin_rows.specs.System.{IsRowOver};
ghost use Rattle.transition_formula.specs.Forms.{column_form};
ghost use Rattle.transition_formula.specs.Stored.{form_of};
ghost use Rattle.thread_cfg.specs.Source.{column_of};
ghost use Rattle.thread_cfg.specs.Edge as specs;
ghost use Rattle.thread_cfg.specs.inside.Machine.{ExpressionWithin};
ghost use Rattle.thread_cfg.specs.inside.Meant.{frame_of};
ghost use Rattle.thread_cfg.specs.inside.Seen.{HeldEventWithin, IsSeenOver, form_seen, held_in, inputs_in, made_row_of, row_seen, seen_after, seen_behind, seen_with_form, seen_with_input, seen_with_row, unless_unfit};

use crate::event::{Event, Expression};
use crate::form::{Setting, line_along};
use crate::relation::Relation;
use crate::row::{MadeRow, row_along};
use c_check::Variable;
use lin_rows::Rows;
use std::alloc::{AllocError, Global};
use transition_formula::Line;

/// What is known behind events.
#[derive(Debug, Drop)]
pub(crate) struct Along {
    /// Each column, over the columns before and the inputs.
    pub(crate) lines: Vec<Line>,
    /// How many inputs there were.
    pub(crate) inputs: u32,
    /// The rows that were asked, without those between numbers.
    pub(crate) tests: Rows,
    /// Whether a row between numbers was false.
    pub(crate) never: bool,
}

/// Whether the row is one between numbers.
fn has_no_column(row: &MadeRow) -> bool
    ensures { result ≡ specs.has_no_column (made_row_of row.now) }
{
    row.coefficients.iter().all(|number| 0 == *number)
}

/// Whether the row, as one between numbers, holds.
fn bound_holds(row: &MadeRow) -> bool
    ensures { result ≡ specs.bound_holds row.now.equal row.now.bound }
{
    if row.equal {
        row.bound == 0
    } else {
        0 <= row.bound
    }
}

/// Whether the row is false whatever the values.
fn is_never(row: &MadeRow) -> bool
    ensures { result ≡ specs.is_never (made_row_of row.now) }
{
    has_no_column(row) && !bound_holds(row)
}

/// Each column as itself.
fn lines_at_first(alloc: Global, setting: Setting) -> Result<Vec<Line>, AllocError>
    requires { setting.columns ≤ setting.width }
    ensures { IfOk result (λ lines. map form_of lines.items ≡ map (column_form setting.width) (range_with_len 0 setting.columns)) }
{
    let mut lines = Vec::with_capacity(alloc, setting.columns as usize)?;
    'columns: for column in 0..setting.columns {
        lines.push(Line::column(alloc, setting.width, column)?)?;
    }
    Ok(lines)
}

/// Puts a line in place of that of a column.
fn put(lines: &mut Vec<Line>, column: u32, line: Line)
    requires { column < length lines.old.items }
    ensures { map form_of lines.new.items ≡ slice_set (map form_of lines.old.items) column (form_of line) }
{
    lines[column as usize] = line;
}

impl Along {
    /// In front of all events.
    pub(crate) fn at_first(alloc: Global, setting: Setting) -> Result<Along, AllocError>
        requires { setting.columns ≤ setting.width }
        ensures { IfOk result (λ along. held_in along ≡ record { forms = map (column_form setting.width) (range_with_len 0 setting.columns); inputs = 0; tests = record { columns = setting.width; rows = [] }; never = false }) }
    {
        let lines = lines_at_first(alloc, setting)?;
        Ok(Along {
            lines,
            inputs: 0,
            tests: Rows::new(alloc, setting.width),
            never: false,
        })
    }

    /// Holds a row that is asked.
    fn hold_row(&mut self, row: &MadeRow) -> Result<(), AllocError>
        requires over { IsRowOver self.old.tests.columns (made_row_of row.now) }
        requires room { length self.old.tests.rows < most_tests }
        ensures { OnOk result (held_in self.new ≡ seen_with_row (held_in self.old) (made_row_of row.now)) }
    {
        self.never = self.never || is_never(row);
        if has_no_column(row) {
            Ok(())
        } else {
            self.tests
                .push(row.equal, row.coefficients.as_slice(), row.bound)
        }
    }

    /// Two numbers are to be related so. Here and below, what is given is the place of what does not fit.
    fn require(
        &mut self,
        alloc: Global,
        setting: Setting,
        from: u32,
        relation: Relation,
        left: &Expression<'_>,
        right: &Expression<'_>,
    ) -> Result<Option<u32>, AllocError>
        requires left { ExpressionWithin setting.columns (frame_of setting.frame) left.now }
        requires right { ExpressionWithin setting.columns (frame_of setting.frame) right.now }
        requires over { IsSeenOver setting.columns setting.width (held_in self.old) }
        requires room { length self.old.tests.rows < most_tests }
        ensures { IfOk result (λ unfit. unless_unfit unfit (held_in self.new) ≡ specs.on_ok (λ row. Ok (seen_with_row (held_in self.old) row)) (specs.fits_or from (row_seen setting.width setting.columns (frame_of setting.frame) (held_in self.old).forms relation left.now right.now))) }
    {
        let row = row_along(alloc, setting, self.lines.as_slice(), relation, left, right)?;
        match row {
            Some(row) => {
                self.hold_row(&row)?;
                Ok(None)
            }
            None => Ok(Some(from)),
        }
    }

    /// A variable is set to what is computed.
    fn set(
        &mut self,
        alloc: Global,
        setting: Setting,
        at: u32,
        variable: Variable,
        value: &Expression<'_>,
    ) -> Result<Option<u32>, AllocError>
        requires column { column_of (frame_of setting.frame) variable < setting.columns }
        requires within { ExpressionWithin setting.columns (frame_of setting.frame) value.now }
        requires over { IsSeenOver setting.columns setting.width (held_in self.old) }
        ensures { IfOk result (λ unfit. unless_unfit unfit (held_in self.new) ≡ specs.on_ok (λ form. Ok (seen_with_form (held_in self.old) (column_of (frame_of setting.frame) variable) form)) (specs.fits_or at (form_seen setting.width setting.columns (frame_of setting.frame) (held_in self.old).forms value.now))) }
    {
        let line = line_along(alloc, setting, self.lines.as_slice(), value)?;
        match line {
            Some(line) => {
                put(&mut self.lines, setting.frame.column(variable), line);
                Ok(None)
            }
            None => Ok(Some(at)),
        }
    }

    /// A variable is set to the next input.
    fn set_any(
        &mut self,
        alloc: Global,
        setting: Setting,
        variable: Variable,
    ) -> Result<(), AllocError>
        requires column { column_of (frame_of setting.frame) variable < setting.columns }
        requires over { IsSeenOver setting.columns setting.width (held_in self.old) }
        requires input { setting.columns + self.old.inputs < setting.width }
        ensures { OnOk result (held_in self.new ≡ seen_with_input setting.width setting.columns (held_in self.old) (column_of (frame_of setting.frame) variable)) }
    {
        let line = Line::column(alloc, setting.width, setting.columns + self.inputs)?;
        put(&mut self.lines, setting.frame.column(variable), line);
        self.inputs += 1;
        Ok(())
    }

    /// An event happens.
    fn follow(
        &mut self,
        alloc: Global,
        setting: Setting,
        event: &Event<'_>,
    ) -> Result<Option<u32>, AllocError>
        requires within { HeldEventWithin setting.columns (frame_of setting.frame) event.now }
        requires over { IsSeenOver setting.columns setting.width (held_in self.old) }
        requires inputs { setting.columns + self.old.inputs + inputs_in (event.now ∷ []) ≤ setting.width }
        requires room { length self.old.tests.rows < most_tests }
        ensures { IfOk result (λ unfit. unless_unfit unfit (held_in self.new) ≡ seen_after setting.width setting.columns (frame_of setting.frame) (held_in self.old) event.now) }
    {
        match event {
            Event::Requires {
                from,
                relation,
                left,
                right,
            } => self.require(alloc, setting, *from, *relation, left, right),
            Event::Sets {
                at,
                variable,
                value,
            } => self.set(alloc, setting, *at, *variable, value),
            Event::SetsAny(variable) => {
                self.set_any(alloc, setting, *variable)?;
                Ok(None)
            }
        }
    }

    /// Events happen, one after another.
    pub(crate) fn follow_all(
        &mut self,
        alloc: Global,
        setting: Setting,
        events: &[Event<'_>],
    ) -> Result<Option<u32>, AllocError>
        requires within { AllByRecursion (HeldEventWithin setting.columns (frame_of setting.frame)) events.now }
        requires over { IsSeenOver setting.columns setting.width (held_in self.old) }
        requires inputs { setting.columns + self.old.inputs + inputs_in events.now ≤ setting.width }
        requires room { length self.old.tests.rows + length events.now ≤ most_tests }
        ensures { IfOk result (λ unfit. unless_unfit unfit (held_in self.new) ≡ seen_behind setting.width setting.columns (frame_of setting.frame) events.now (held_in self.old)) }
    {
        'events: for event in events {
            let unfit = self.follow(alloc, setting, event)?;
            match unfit {
                Some(place) => return Ok(Some(place)),
                None => {}
            }
        }
        Ok(None)
    }
}
