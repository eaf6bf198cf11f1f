ghost use Rattle.std.specs.Prelude.{◌≡◌, ◌==◌, ◌+◌, ◌-◌, ◌^◌, ◌<◌, ◌≤◌, ◌∷◌, [], ◌++◌, length, map, filter, Some, IfOk, OnOk, OnErr, IsSome};
ghost use Rattle.std.specs.List.{AllByRecursion, list_any};
ghost use Rattle.thr_base.specs.Number.{Fits};
ghost use Rattle.lin_rows.specs.System.{IsRowOver, with_row, with_rows};
ghost use Rattle.lin_rows.specs.View.{row_of, system_of};
ghost use Rattle.transition_formula.specs.Program.{IsProgram, Thread, IsEdge, IsThreadOf, IsFormOver, at_number};
ghost use Rattle.transition_formula.specs.Rows.{column_is, edge_width, is_kept, kept_row, kept_columns, test_row, set_row, edge_system, AreEdgeRows, seen_system, AreSeenRows};
ghost use Rattle.transition_formula.specs.Stored.{edge_of, form_of, set_of, thread_of};

use crate::blocks::{push_unit, push_zeros};
use crate::graph::{Edge, Line, ThreadGraph};
use crate::program::Program;
use lin_rows::{RowView, Rows, RowsView, push_opposites};
use std::alloc::{AllocError, Global};
use thr_base::{EdgeNo, ThreadNo};

/// How many columns and inputs the tests and lines of an edge are over.
#[derive(Clone, Copy, Debug)]
struct Shape {
    columns: u32,
    inputs: u32,
}

/// Appends the row that gives a column its value. Here and below, `row` is room for the coefficients, and its numbers are lost.
pub fn push_column_is(
    rows: &mut Rows,
    row: &mut Vec<i128>,
    column: u32,
    value: i128,
) -> Result<(), AllocError>
    requires within { column < rows.old.columns }
    requires fits { Fits value }
    requires room { length rows.old.rows < 2 ^ 32 - 2 }
    ensures ok { OnOk result (rows.new ≡ with_row rows.old (column_is rows.old.columns column value)) }
    ensures err { OnErr result (rows.new ≡ rows.old) }
{
    let width = rows.view().columns();
    row.clear();
    push_unit(row, width, column, 1)?;
    rows.push(true, row.as_slice(), value)
}

/// Appends the row of a column that is kept.
fn push_kept(
    rows: &mut Rows,
    row: &mut Vec<i128>,
    shape: Shape,
    column: u32,
) -> Result<(), AllocError>
    requires width { rows.old.columns ≡ edge_width shape.columns shape.inputs }
    requires within { column < shape.columns }
    requires room { length rows.old.rows < 2 ^ 32 - 2 }
    ensures { OnOk result (rows.new ≡ with_row rows.old (kept_row shape.columns shape.inputs column)) }
{
    row.clear();
    push_unit(row, shape.columns, column, -1)?;
    push_unit(row, shape.columns, column, 1)?;
    push_zeros(row, shape.inputs)?;
    rows.push(true, row.as_slice(), 0)
}

fn sets_column(sets: &[(u32, Line)], column: u32) -> bool
    ensures { result ≡ list_any (λ set. set.0 == column) sets.now }
{
    sets.iter().any(|set| set.0 == column)
}

pub(crate) fn is_kept(counter: u32, edge: &Edge, column: u32) -> bool
    ensures { result ≡ is_kept counter (edge_of edge.now) column }
{
    column != counter && !sets_column(edge.sets.as_slice(), column)
}

/// Appends the row of a column where the edge keeps it.
fn push_if_kept(
    rows: &mut Rows,
    row: &mut Vec<i128>,
    shape: Shape,
    counter: u32,
    edge: &Edge,
    column: u32,
) -> Result<(), AllocError>
    requires width { rows.old.columns ≡ edge_width shape.columns shape.inputs }
    requires within { column < shape.columns }
    requires room { length rows.old.rows < 2 ^ 32 - 2 }
    ensures { OnOk result (rows.new ≡ with_rows rows.old (map (kept_row shape.columns shape.inputs) (filter (is_kept counter (edge_of edge.now)) (column ∷ [])))) }
{
    if is_kept(counter, edge, column) {
        push_kept(rows, row, shape, column)
    } else {
        Ok(())
    }
}

fn push_kept_rows(
    rows: &mut Rows,
    row: &mut Vec<i128>,
    shape: Shape,
    counter: u32,
    edge: &Edge,
) -> Result<(), AllocError>
    requires width { rows.old.columns ≡ edge_width shape.columns shape.inputs }
    requires room { length rows.old.rows + shape.columns < 2 ^ 32 - 1 }
    ensures few { OnOk result (length rows.new.rows ≤ length rows.old.rows + shape.columns) }
    ensures rows { OnOk result (rows.new ≡ with_rows rows.old (map (kept_row shape.columns shape.inputs) (kept_columns shape.columns counter (edge_of edge.now)))) }
{
    'columns: for column in 0..shape.columns {
        push_if_kept(rows, row, shape, counter, edge, column)?;
    }
    Ok(())
}

/// Appends a test.
fn push_test(
    rows: &mut Rows,
    row: &mut Vec<i128>,
    shape: Shape,
    test: &RowView<'_>,
) -> Result<(), AllocError>
    requires width { rows.old.columns ≡ edge_width shape.columns shape.inputs }
    requires over { IsRowOver (shape.columns + shape.inputs) (row_of test.now) }
    requires room { length rows.old.rows < 2 ^ 32 - 2 }
    ensures { OnOk result (rows.new ≡ with_row rows.old (test_row shape.columns (row_of test.now))) }
{
    let (before, inputs) = test.coefficients.split_at(shape.columns as usize);
    row.clear();
    row.extend_from_slice(before)?;
    push_zeros(row, shape.columns)?;
    row.extend_from_slice(inputs)?;
    rows.push(test.equal, row.as_slice(), test.bound)
}

fn push_tests(
    rows: &mut Rows,
    row: &mut Vec<i128>,
    shape: Shape,
    tests: &RowsView<'_>,
) -> Result<(), AllocError>
    requires width { rows.old.columns ≡ edge_width shape.columns shape.inputs }
    requires over { AllByRecursion (IsRowOver (shape.columns + shape.inputs)) (system_of tests.now).rows }
    requires room { length rows.old.rows + length (system_of tests.now).rows < 2 ^ 32 - 1 }
    ensures { OnOk result (rows.new ≡ with_rows rows.old (map (test_row shape.columns) (system_of tests.now).rows)) }
{
    'tests: for place in 0..tests.count() {
        push_test(rows, row, shape, &tests.row(place))?;
    }
    Ok(())
}

/// Appends the row of a column that is set.
fn push_set(
    rows: &mut Rows,
    row: &mut Vec<i128>,
    shape: Shape,
    column: u32,
    line: &Line,
) -> Result<(), AllocError>
    requires width { rows.old.columns ≡ edge_width shape.columns shape.inputs }
    requires within { column < shape.columns }
    requires over { IsFormOver (shape.columns + shape.inputs) (form_of line.now) }
    requires room { length rows.old.rows < 2 ^ 32 - 2 }
    ensures { OnOk result (rows.new ≡ with_row rows.old (set_row shape.columns (column, form_of line.now))) }
{
    let (before, inputs) = line
        .coefficients
        .as_slice()
        .split_at(shape.columns as usize);
    row.clear();
    push_opposites(row, before)?;
    push_unit(row, shape.columns, column, 1)?;
    push_opposites(row, inputs)?;
    rows.push(true, row.as_slice(), line.constant)
}

fn push_sets(
    rows: &mut Rows,
    row: &mut Vec<i128>,
    shape: Shape,
    sets: &[(u32, Line)],
) -> Result<(), AllocError>
    requires width { rows.old.columns ≡ edge_width shape.columns shape.inputs }
    requires within { AllByRecursion (λ set. set.0 < shape.columns) (map set_of sets.now) }
    requires over { AllByRecursion (λ set. IsFormOver (shape.columns + shape.inputs) set.1) (map set_of sets.now) }
    requires room { length rows.old.rows + length sets.now < 2 ^ 32 - 1 }
    ensures { OnOk result (rows.new ≡ with_rows rows.old (map (set_row shape.columns) (map set_of sets.now))) }
{
    'sets: for set in sets {
        push_set(rows, row, shape, set.0, &set.1)?;
    }
    Ok(())
}

/// The rows of an edge, over the columns before, the columns after and the inputs.
fn rows_of(
    alloc: Global,
    program: &Program,
    thread: &ThreadGraph,
    edge: &Edge,
) -> Result<Rows, AllocError>
    requires program { IsProgram program.now }
    requires counter { thread.now.counter < length program.now.columns }
    requires edge { IsEdge program.now (thread_of thread.now) (edge_of edge.now) }
    ensures { IfOk result (λ rows. rows ≡ edge_system program.now (thread_of thread.now) (edge_of edge.now)) }
{
    let columns = program.columns();
    let shape = Shape {
        columns,
        inputs: edge.inputs,
    };
    let width = columns + (columns + edge.inputs);
    let mut rows = Rows::new(alloc, width);
    let mut row = Vec::with_capacity(alloc, width as usize)?;
    let counter = thread.counter;
    push_column_is(&mut rows, &mut row, counter, i128::from(edge.from.0))?;
    push_column_is(
        &mut rows,
        &mut row,
        columns + counter,
        i128::from(edge.to.0),
    )?;
    push_kept_rows(&mut rows, &mut row, shape, counter, edge)?;
    push_tests(&mut rows, &mut row, shape, &edge.tests.view())?;
    push_sets(&mut rows, &mut row, shape, edge.sets.as_slice())?;
    Ok(rows)
}

pub(crate) fn edge_at(thread: &ThreadGraph, e: EdgeNo) -> &Edge
    requires { IsSome (at_number (thread_of thread.now).edges e.0) }
    ensures { at_number (thread_of thread.now).edges e.0 ≡ Some (edge_of result.now) }
{
    &thread.edges[e.0 as usize - 1]
}

/// The rows of an edge, over the columns before the step, the columns after it, and the inputs. They hold at exactly the steps
/// by the edge.
pub fn edge_rows(
    alloc: Global,
    program: &Program,
    i: ThreadNo,
    e: EdgeNo,
) -> Result<Rows, AllocError>
    requires thread { IsSome (at_number program.now.threads i.0) }
    requires edge { (thread : Thread) → IsThreadOf program.now i.0 thread → IsSome (at_number thread.edges e.0) }
    ensures { IfOk result (AreEdgeRows program.now i.0 e.0) }
{
    let thread = program.thread(i);
    let edge = edge_at(thread, e);
    rows_of(alloc, program, thread, edge)
}

/// The rows of an edge that all threads see.
fn seen_rows_of(
    alloc: Global,
    program: &Program,
    thread: &ThreadGraph,
    edge: &Edge,
) -> Result<Rows, AllocError>
    requires program { IsProgram program.now }
    requires counter { thread.now.counter < length program.now.columns }
    ensures { IfOk result (λ rows. rows ≡ seen_system program.now (thread_of thread.now) (edge_of edge.now)) }
{
    let columns = program.columns();
    let shape = Shape { columns, inputs: 0 };
    let width = columns + columns;
    let mut rows = Rows::new(alloc, width);
    let mut row = Vec::with_capacity(alloc, width as usize)?;
    let counter = thread.counter;
    let (from, to) = (i128::from(edge.from.0), i128::from(edge.to.0));
    push_column_is(&mut rows, &mut row, counter, from)?;
    push_column_is(&mut rows, &mut row, columns + counter, to)?;
    push_kept_rows(&mut rows, &mut row, shape, counter, edge)?;
    Ok(rows)
}

/// What all threads see of the steps by an edge, as rows over the columns before the step and the columns after it: where its
/// thread is, and which columns stay.
pub fn seen_rows(
    alloc: Global,
    program: &Program,
    i: ThreadNo,
    e: EdgeNo,
) -> Result<Rows, AllocError>
    requires thread { IsSome (at_number program.now.threads i.0) }
    requires edge { (thread : Thread) → IsThreadOf program.now i.0 thread → IsSome (at_number thread.edges e.0) }
    ensures { IfOk result (AreSeenRows program.now i.0 e.0) }
{
    let thread = program.thread(i);
    let edge = edge_at(thread, e);
    seen_rows_of(alloc, program, thread, edge)
}
