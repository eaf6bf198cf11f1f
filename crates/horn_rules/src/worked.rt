ghost use Rattle.std.specs.Prelude.{◌≡◌, ◌∷◌, [], map, IfOk};
ghost use Rattle.transition_formula.specs.Stored.{column_of, edge_of, thread_of};
ghost use Rattle.horn_rules.specs.inside.Worked.{bare_edge, counter_column, first_thread, second_thread, worked_columns, worked_program};

use lin_rows::Rows;
use std::alloc::{AllocError, Global};
use thr_base::{Loc, ThreadNo};
use transition_formula::{Column, Edge, Program, ThreadGraph};

fn counter(alloc: Global, thread: ThreadNo, text: &[u8]) -> Result<Column, AllocError>
    ensures { IfOk result (λ made. column_of made ≡ counter_column thread.0 text.now) }
{
    let text = Vec::from_slice(alloc, text)?;
    Ok(Column {
        text,
        owner: Some(thread),
        start: Some(1),
    })
}

fn columns(alloc: Global) -> Result<Vec<Column>, AllocError>
    ensures { IfOk result (λ made. map column_of made.items ≡ worked_columns) }
{
    let mut columns = Vec::new(alloc);
    columns.push(counter(alloc, ThreadNo(1), b"t1.$pc")?)?;
    columns.push(counter(alloc, ThreadNo(2), b"t2.$pc")?)?;
    Ok(columns)
}

/// An edge that only leads on.
fn edge(alloc: Global, from: Loc, to: Loc) -> Edge
    ensures { edge_of result ≡ bare_edge from.0 to.0 }
{
    Edge {
        from,
        to,
        inputs: 0,
        tests: Rows::new(alloc, 2),
        sets: Vec::new(alloc),
    }
}

/// The first thread has 3 locations and 2 edges.
fn first(alloc: Global) -> Result<ThreadGraph, AllocError>
    ensures { IfOk result (λ made. thread_of made ≡ first_thread) }
{
    let mut edges = Vec::new(alloc);
    edges.push(edge(alloc, Loc(1), Loc(2)))?;
    edges.push(edge(alloc, Loc(2), Loc(0)))?;
    Ok(ThreadGraph {
        counter: 0,
        locations: 3,
        edges,
    })
}

/// The second thread has 4 locations and 1 edge.
fn second(alloc: Global) -> Result<ThreadGraph, AllocError>
    ensures { IfOk result (λ made. thread_of made ≡ second_thread) }
{
    let mut edges = Vec::new(alloc);
    edges.push(edge(alloc, Loc(1), Loc(3)))?;
    Ok(ThreadGraph {
        counter: 1,
        locations: 4,
        edges,
    })
}

fn threads(alloc: Global) -> Result<Vec<ThreadGraph>, AllocError>
    ensures { IfOk result (λ made. map thread_of made.items ≡ first_thread ∷ second_thread ∷ []) }
{
    let mut threads = Vec::new(alloc);
    threads.push(first(alloc)?)?;
    threads.push(second(alloc)?)?;
    Ok(threads)
}

/// A program of two threads without columns of their own and without tests, for tests of the crates above.
pub fn two_bare_threads(alloc: Global) -> Result<Program, AllocError>
    ensures { IfOk result (λ program. program ≡ worked_program) }
{
    let columns = columns(alloc)?;
    let threads = threads(alloc)?;
    Ok(Program::new(columns, threads))
}
