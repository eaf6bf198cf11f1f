ghost use Rattle.std.specs.Prelude.{◌≡◌, ◌∷◌, [], map, IfOk};
ghost use Rattle.thr_base.specs.Number.{Fits};
ghost use Rattle.transition_formula.specs.Stored.{column_of, edge_of, thread_of};
ghost use Rattle.transition_formula.specs.inside.Worked.{worked_program};
ghost use Rattle.step_meaning.specs.inside.Adding.{adding_columns, adding_edge, adding_program, adding_thread};

use super::*;
use lin_rows::Rows;
use std::alloc::{AllocError, Global};
use std::test::Fail;
use thr_base::{EdgeNo, Loc, ThreadNo};
use transition_formula::{Column, Edge, Line, Program, ThreadGraph, two_threads};

/// The least power of 2 whose double does not fit.
const HALF: i128 = 85070591730234615865843651857942052864;

const GREATEST: i128 = 170141183460469231731687303715884105727;

/// The first thread's step: where `2x + 5i <= 7`, it sets its own column to `x - i + 3`.
fn first(program: &Program, state: [i128; 4], input: i128) -> (StepAnswer, [i128; 4])
    requires { program.now ≡ worked_program }
{
    let mut next = [7, 7, 7, 7];
    let answer = step(program, &state, ThreadNo(1), EdgeNo(1), &[input], &mut next);
    (answer, next)
}

/// The second thread's step: it adds 1 to x.
fn second(program: &Program, state: [i128; 4]) -> (StepAnswer, [i128; 4])
    requires { program.now ≡ worked_program }
{
    let mut next = [7, 7, 7, 7];
    let answer = step(program, &state, ThreadNo(2), EdgeNo(1), &[], &mut next);
    (answer, next)
}

fn is_answer(given: (StepAnswer, [i128; 4]), answer: StepAnswer, next: [i128; 4]) -> bool {
    given.0 == answer && given.1.as_slice() == next.as_slice()
}

fn is_blocked(given: (StepAnswer, [i128; 4])) -> bool {
    is_answer(given, StepAnswer::Blocked, [7, 7, 7, 7])
}

fn overflows(given: (StepAnswer, [i128; 4])) -> bool {
    is_answer(given, StepAnswer::Overflow, [7, 7, 7, 7])
}

#[test]
fn states_that_a_program_starts_in(rt: HostRuntime) -> Result<(), Fail> {
    let program = two_threads(rt.alloc())?;
    assert!(rt; initial(&program, &[0, 42, 1, 1]));
    assert!(rt; initial(&program, &[0, -3, 1, 1]));
    assert!(rt; !initial(&program, &[1, 42, 1, 1]));
    assert!(rt; !initial(&program, &[0, 42, 1, 2]));
    Ok(())
}

#[test]
fn next_states(rt: HostRuntime) -> Result<(), Fail> {
    let program = two_threads(rt.alloc())?;
    assert!(rt;
        is_answer(
            first(&program, [1, 9, 1, 1], 1),
            StepAnswer::Next,
            [1, 3, 2, 1]
        )
    );
    assert!(rt;
        is_answer(
            second(&program, [1, 9, 1, 1]),
            StepAnswer::Next,
            [2, 9, 1, 2]
        )
    );
    Ok(())
}

#[test]
fn steps_that_are_blocked(rt: HostRuntime) -> Result<(), Fail> {
    let program = two_threads(rt.alloc())?;
    assert!(rt; is_blocked(first(&program, [1, 9, 1, 1], 2)));
    assert!(rt; is_blocked(first(&program, [1, 9, 2, 1], 1)));
    assert!(rt; is_blocked(second(&program, [1, 9, 1, 0])));
    Ok(())
}

#[test]
fn steps_whose_numbers_do_not_fit(rt: HostRuntime) -> Result<(), Fail> {
    let program = two_threads(rt.alloc())?;
    // The test would be false over unbounded numbers, or true.
    assert!(rt; overflows(first(&program, [HALF, 9, 1, 1], 1)));
    assert!(rt; overflows(first(&program, [-HALF, 9, 1, 1], 1)));
    assert!(rt; overflows(second(&program, [GREATEST, 9, 1, 1])));
    // The counter is looked at first.
    assert!(rt; is_blocked(first(&program, [HALF, 9, 2, 1], 1)));
    assert!(rt; is_blocked(second(&program, [GREATEST, 9, 1, 2])));
    Ok(())
}

/// x and the counter of one thread.
fn columns(alloc: Global) -> Result<Vec<Column>, AllocError>
    ensures { IfOk result (λ made. map column_of made.items ≡ adding_columns) }
{
    let mut columns = Vec::new(alloc);
    columns.push(Column {
        text: Vec::from_slice(alloc, b"x")?,
        owner: None,
        start: Some(0),
    })?;
    columns.push(Column {
        text: Vec::from_slice(alloc, b"t1.$pc")?,
        owner: Some(ThreadNo(1)),
        start: Some(1),
    })?;
    Ok(columns)
}

/// Where `x <= bound`, it adds 1 to x.
fn adds_one(alloc: Global, bound: i128) -> Result<Edge, AllocError>
    requires { Fits bound }
    ensures { IfOk result (λ edge. edge_of edge ≡ adding_edge bound) }
{
    let mut tests = Rows::new(alloc, 2);
    tests.push(false, &[1, 0], bound)?;
    let coefficients = Vec::from_slice(alloc, &[1, 0])?;
    let mut sets = Vec::new(alloc);
    sets.push((
        0,
        Line {
            coefficients,
            constant: 1,
        },
    ))?;
    Ok(Edge {
        from: Loc(1),
        to: Loc(2),
        inputs: 0,
        tests,
        sets,
    })
}

fn threads(alloc: Global, bound: i128) -> Result<Vec<ThreadGraph>, AllocError>
    requires { Fits bound }
    ensures { IfOk result (λ made. map thread_of made.items ≡ adding_thread bound ∷ []) }
{
    let mut edges = Vec::new(alloc);
    edges.push(adds_one(alloc, bound)?)?;
    let mut threads = Vec::new(alloc);
    threads.push(ThreadGraph {
        counter: 1,
        locations: 3,
        edges,
    })?;
    Ok(threads)
}

/// One thread, which adds 1 to x where `x <= bound`.
fn adding(alloc: Global, bound: i128) -> Result<Program, AllocError>
    requires { Fits bound }
    ensures { IfOk result (λ program. program ≡ adding_program bound) }
{
    let columns = columns(alloc)?;
    let threads = threads(alloc, bound)?;
    Ok(Program::new(columns, threads))
}

fn add(program: &Program, bound: i128, state: [i128; 2]) -> (StepAnswer, [i128; 2])
    requires { program.now ≡ adding_program bound }
{
    let mut next = [7, 7];
    let answer = step(program, &state, ThreadNo(1), EdgeNo(1), &[], &mut next);
    (answer, next)
}

#[test]
fn a_false_test_before_a_set_that_does_not_fit(rt: HostRuntime) -> Result<(), Fail> {
    let program = adding(rt.alloc(), 5)?;
    let blocked = add(&program, 5, [GREATEST, 1]);
    assert!(rt; blocked.0 == StepAnswer::Blocked);
    assert!(rt; blocked.1.as_slice() == [7, 7].as_slice());
    let added = add(&program, 5, [5, 1]);
    assert!(rt; added.0 == StepAnswer::Next);
    assert!(rt; added.1.as_slice() == [6, 2].as_slice());
    let other = adding(rt.alloc(), GREATEST)?;
    let overflows = add(&other, GREATEST, [GREATEST, 1]);
    assert!(rt; overflows.0 == StepAnswer::Overflow);
    assert!(rt; overflows.1.as_slice() == [7, 7].as_slice());
    Ok(())
}
