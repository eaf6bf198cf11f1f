ghost use Rattle.std.specs.Prelude.{◌≡◌, ◌∷◌, [], map, option_map, IfOk};
ghost use Rattle.transition_formula.specs.Stored.{column_of, edge_of, form_of, thread_of};
ghost use Rattle.transition_formula.specs.inside.Worked.{worked_columns, worked_test, own_form, shared_form, first_edge, second_edge, worked_thread, worked_threads, worked_program};

use crate::graph::{Column, Edge, Line, ThreadGraph};
use crate::program::Program;
use lin_rows::Rows;
use std::alloc::{AllocError, Global};
use thr_base::{Loc, ThreadNo};

fn column(
    alloc: Global,
    text: &[u8],
    owner: Option<ThreadNo>,
    start: Option<i128>,
) -> Result<Column, AllocError>
    ensures { IfOk result (λ made. column_of made ≡ record { text = text.now; owner = option_map (λ thread. thread.0) owner; start = start }) }
{
    let text = Vec::from_slice(alloc, text)?;
    Ok(Column { text, owner, start })
}

/// A shared column, one of the first thread's own, and the counters of two threads.
fn columns(alloc: Global) -> Result<Vec<Column>, AllocError>
    ensures { IfOk result (λ made. map column_of made.items ≡ worked_columns) }
{
    let mut columns = Vec::new(alloc);
    columns.push(column(alloc, b"x", None, Some(0))?)?;
    columns.push(column(alloc, b"t1.l", Some(ThreadNo(1)), None)?)?;
    columns.push(column(alloc, b"t1.$pc", Some(ThreadNo(1)), Some(1))?)?;
    columns.push(column(alloc, b"t2.$pc", Some(ThreadNo(2)), Some(1))?)?;
    Ok(columns)
}

fn line(alloc: Global, coefficients: &[i128], constant: i128) -> Result<Line, AllocError>
    ensures { IfOk result (λ made. form_of made ≡ record { coefficients = coefficients.now; constant = constant }) }
{
    let coefficients = Vec::from_slice(alloc, coefficients)?;
    Ok(Line {
        coefficients,
        constant,
    })
}

fn tests_of_first(alloc: Global) -> Result<Rows, AllocError>
    ensures { IfOk result (λ rows. rows.rows ≡ worked_test ∷ []) }
{
    let mut tests = Rows::new(alloc, 5);
    tests.push(false, &[2, 0, 0, 0, 5], 7)?;
    Ok(tests)
}

/// Where `2x + 5i <= 7`, the first thread sets its own column to `x - i + 3`, with `i` the input.
fn first(alloc: Global) -> Result<Edge, AllocError>
    ensures { IfOk result (λ made. edge_of made ≡ first_edge) }
{
    let mut sets = Vec::new(alloc);
    sets.push((1, line(alloc, &[1, 0, 0, 0, -1], 3)?))?;
    Ok(Edge {
        from: Loc(1),
        to: Loc(2),
        inputs: 1,
        tests: tests_of_first(alloc)?,
        sets,
    })
}

/// The second thread adds 1 to the shared column.
fn second(alloc: Global) -> Result<Edge, AllocError>
    ensures { IfOk result (λ made. edge_of made ≡ second_edge) }
{
    let mut sets = Vec::new(alloc);
    sets.push((0, line(alloc, &[1, 0, 0, 0], 1)?))?;
    Ok(Edge {
        from: Loc(1),
        to: Loc(2),
        inputs: 0,
        tests: Rows::new(alloc, 4),
        sets,
    })
}

fn thread(alloc: Global, counter: u32, edge: Edge) -> Result<ThreadGraph, AllocError>
    ensures { IfOk result (λ made. thread_of made ≡ worked_thread counter (edge_of edge)) }
{
    let mut edges = Vec::new(alloc);
    edges.push(edge)?;
    Ok(ThreadGraph {
        counter,
        locations: 3,
        edges,
    })
}

fn threads(alloc: Global) -> Result<Vec<ThreadGraph>, AllocError>
    ensures { IfOk result (λ made. map thread_of made.items ≡ worked_threads) }
{
    let mut threads = Vec::new(alloc);
    threads.push(thread(alloc, 2, first(alloc)?)?)?;
    threads.push(thread(alloc, 3, second(alloc)?)?)?;
    Ok(threads)
}

/// A program of two threads with a shared column, for tests of the crates above.
pub fn two_threads(alloc: Global) -> Result<Program, AllocError>
    ensures { IfOk result (λ program. program ≡ worked_program) }
{
    let columns = columns(alloc)?;
    let threads = threads(alloc)?;
    Ok(Program::new(columns, threads))
}
