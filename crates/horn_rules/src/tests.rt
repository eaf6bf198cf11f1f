ghost use Rattle.std.specs.Prelude.{◌≡◌, ◌≤◌, [], IfOk};
ghost use Rattle.horn_rules.specs.inside.JobRows.{AreItsPremises};
ghost use Rattle.horn_rules.specs.inside.Worked.{worked_program};

use super::*;
use crate::job::rows_of_kind;
use lin_rows::Rows;
use predicate_sets::{HomeSet, Sets};
use std::alloc::{AllocError, Global};
use std::sync::Arc;
use std::test::Fail;
use thr_base::{EdgeNo, Epoch, Fact, FactId, Home, HomeNo, Instance, Loc, ThreadNo};
use transition_formula::Program;

/// The home of a number, where there is one, and the number of that home.
fn there_and_back(program: &Program, n: u32) -> Option<(Home, HomeNo)> {
    if n == 0 {
        return None;
    }
    if n > home_count(program) {
        return None;
    }
    let home = named(program, HomeNo(n));
    Some((home, number(program, home)))
}

fn is_state(program: &Program, n: u32, thread: u32, location: u32) -> bool {
    there_and_back(program, n) == Some((Home::State(ThreadNo(thread), Loc(location)), HomeNo(n)))
}

fn is_env(program: &Program, n: u32, thread: u32, edge: u32) -> bool {
    there_and_back(program, n) == Some((Home::Env(ThreadNo(thread), EdgeNo(edge)), HomeNo(n)))
}

#[test]
fn homes_of_two_threads_in_order(rt: HostRuntime) -> Result<(), Fail> {
    let program = two_bare_threads(rt.alloc())?;
    assert_eq!(rt; home_count(&program), 10);
    assert!(rt; is_state(&program, 1, 1, 0));
    assert!(rt; is_state(&program, 3, 1, 2));
    assert!(rt; is_state(&program, 4, 2, 0));
    assert!(rt; is_state(&program, 7, 2, 3));
    assert!(rt; is_env(&program, 8, 1, 1));
    assert!(rt; is_env(&program, 9, 1, 2));
    assert!(rt; is_env(&program, 10, 2, 1));
    assert!(rt; has_home(&program, Home::State(ThreadNo(2), Loc(3))));
    assert!(rt; !has_home(&program, Home::Env(ThreadNo(2), EdgeNo(2))));
    Ok(())
}

fn no_predicates(alloc: Global, home: u32) -> Result<Arc<HomeSet>, AllocError>
    requires { 1 ≤ home }
    ensures { IfOk result (λ set. set.value ≡ []) }
{
    let sets = Sets::new(alloc, home)?;
    sets.at(HomeNo(home))
}

/// A premise at a home without predicates.
fn premise(alloc: Global, home: u32) -> Result<Premise, AllocError>
    requires { 1 ≤ home }
    ensures { IfOk result (λ premise. (premise.fact.home.0 ≡ home) × (premise.set.value ≡ [])) }
{
    let set = no_predicates(alloc, home)?;
    let fact = Fact {
        home: HomeNo(home),
        held: 0,
    };
    Ok(Premise {
        id: FactId(1),
        fact,
        set,
    })
}

/// The rows of the first thread's start.
fn start(alloc: Global, program: &Program) -> Result<Rows, AllocError>
    requires { program.now ≡ worked_program }
{
    let target = no_predicates(alloc, 2)?;
    let job = Job {
        program,
        worker: 1,
        instance: Instance::Init(ThreadNo(1)),
        home: HomeNo(2),
        epoch: Epoch(0),
        first: None,
        second: None,
        target,
    };
    instance_rows(alloc, program, &job)
}

/// Those of the first step of the first thread.
fn own(alloc: Global, program: &Program) -> Result<Rows, AllocError>
    requires { program.now ≡ worked_program }
{
    let starts = premise(alloc, 2)?;
    let instance = Instance::Own(FactId(1), EdgeNo(1));
    rows_of_kind(alloc, program, instance, &Some(starts), &None)
}

/// Those of what the other thread is told of it.
fn guar(alloc: Global, program: &Program) -> Result<Rows, AllocError>
    requires { program.now ≡ worked_program }
{
    let starts = premise(alloc, 2)?;
    let instance = Instance::Guar(FactId(1), EdgeNo(1));
    rows_of_kind(alloc, program, instance, &Some(starts), &None)
}

/// Those of the first thread, which stays at its start in a step of the second that it is told of.
fn env(alloc: Global, program: &Program) -> Result<Rows, AllocError>
    requires { program.now ≡ worked_program }
{
    let stays = premise(alloc, 2)?;
    let told = premise(alloc, 10)?;
    let instance = Instance::Env(FactId(1), FactId(2));
    rows_of_kind(alloc, program, instance, &Some(stays), &Some(told))
}

/// Those of the first thread, which stays at its start in a step of the second from its start.
fn inter(alloc: Global, program: &Program) -> Result<Rows, AllocError>
    requires { program.now ≡ worked_program }
{
    let stays = premise(alloc, 2)?;
    let starts = premise(alloc, 5)?;
    let instance = Instance::Inter(FactId(1), FactId(2), EdgeNo(1));
    rows_of_kind(alloc, program, instance, &Some(stays), &Some(starts))
}

/// The row at a place says that this sum of the columns is the bound.
fn is_row(rows: &Rows, place: u32, coefficients: &[i128], bound: i128) -> bool {
    let view = rows.view();
    if place < view.count() {
        let row = view.row(place);
        row.equal && row.coefficients == coefficients && row.bound == bound
    } else {
        false
    }
}

#[test]
fn a_start_and_a_step_of_a_thread(rt: HostRuntime) -> Result<(), Fail> {
    let alloc = rt.alloc();
    let program = two_bare_threads(alloc)?;
    let start = start(alloc, &program)?;
    assert_eq!(rt; start.view().count(), 2);
    assert!(rt; is_row(&start, 0, &[1, 0], 1));
    assert!(rt; is_row(&start, 1, &[0, 1], 1));
    assert_eq!(rt; own(alloc, &program)?.view().count(), 4);
    let step = guar(alloc, &program)?;
    assert_eq!(rt; step.view().count(), 4);
    assert!(rt; is_row(&step, 0, &[1, 0, 0, 0], 1));
    assert!(rt; is_row(&step, 1, &[1, 0, 0, 0], 1));
    assert!(rt; is_row(&step, 2, &[0, 0, 1, 0], 2));
    assert!(rt; is_row(&step, 3, &[0, -1, 0, 1], 0));
    Ok(())
}

#[test]
fn a_thread_that_stays_in_a_step_of_another(rt: HostRuntime) -> Result<(), Fail> {
    let alloc = rt.alloc();
    let program = two_bare_threads(alloc)?;
    let told = env(alloc, &program)?;
    assert_eq!(rt; told.view().count(), 4);
    assert!(rt; is_row(&told, 0, &[1, 0, 0, 0], 1));
    assert!(rt; is_row(&told, 1, &[0, 1, 0, 0], 1));
    assert!(rt; is_row(&told, 2, &[0, 0, 0, 1], 3));
    assert!(rt; is_row(&told, 3, &[-1, 0, 1, 0], 0));
    let meets = inter(alloc, &program)?;
    assert_eq!(rt; meets.view().count(), 5);
    assert!(rt; is_row(&meets, 0, &[1, 0, 0, 0], 1));
    assert!(rt; is_row(&meets, 1, &[0, 1, 0, 0], 1));
    assert!(rt; is_row(&meets, 2, &[0, 1, 0, 0], 1));
    assert!(rt; is_row(&meets, 3, &[0, 0, 0, 1], 3));
    assert!(rt; is_row(&meets, 4, &[-1, 0, 1, 0], 0));
    Ok(())
}

#[test]
fn texts_of_homes(rt: HostRuntime) -> Result<(), Fail> {
    let mut out = Vec::new(rt.alloc());
    push_home(&mut out, Home::State(ThreadNo(2), Loc(0)))?;
    push_home(&mut out, Home::Env(ThreadNo(1), EdgeNo(12)))?;
    assert!(rt; out.as_slice() == b"s 2 0e 1 12".as_slice());
    Ok(())
}

fn fact(home: u32, held: u128) -> Fact
    ensures { result.home.0 ≡ home }
{
    Fact {
        home: HomeNo(home),
        held,
    }
}

/// The table of facts at three homes, of which one stands twice.
fn three(alloc: Global, program: &Program) -> Result<Vec<u8>, AllocError>
    requires { program.now ≡ worked_program }
{
    let facts = [fact(10, 0), fact(2, 5), fact(1, 1), fact(2, 5)];
    table(alloc, program, &facts)
}

/// The line of a fact at the second thread's start.
fn line(alloc: Global, program: &Program) -> Result<Vec<u8>, AllocError>
    requires { program.now ≡ worked_program }
{
    let mut out = Vec::new(alloc);
    push_fact(&mut out, program, &fact(5, 6))?;
    Ok(out)
}

#[test]
fn texts_of_facts(rt: HostRuntime) -> Result<(), Fail> {
    let alloc = rt.alloc();
    let program = two_bare_threads(alloc)?;
    let text = three(alloc, &program)?;
    assert!(rt; text.as_slice() == b"s 1 0 : 1\ns 1 1 : 1 3\ne 2 1 :\nend\n".as_slice());
    assert!(rt; line(alloc, &program)?.as_slice() == b"s 2 1 : 2 3\n".as_slice());
    assert_eq!(rt; in_front(2, Instance::Own(FactId(1), EdgeNo(1))), 2);
    assert_eq!(rt; in_front(2, Instance::Guar(FactId(1), EdgeNo(1))), 0);
    Ok(())
}

fn location(thread: u32, location: u32) -> Home {
    Home::State(ThreadNo(thread), Loc(location))
}

#[test]
fn targets_by_the_homes_of_premises(rt: HostRuntime) -> Result<(), Fail> {
    let program = two_bare_threads(rt.alloc())?;
    let f = FactId(1);
    let at = Some(location(1, 1));
    let other = Some(location(2, 1));
    let told = Some(Home::Env(ThreadNo(2), EdgeNo(1)));
    let own = Instance::Own(f, EdgeNo(1));
    assert!(rt; target(&program, own, at, None) == Some(location(1, 2)));
    assert!(rt; target(&program, own, Some(location(1, 2)), None).is_none());
    assert!(rt; target(&program, Instance::Own(f, EdgeNo(3)), at, None).is_none());
    let guar = Instance::Guar(f, EdgeNo(1));
    let seen = Home::Env(ThreadNo(1), EdgeNo(1));
    assert!(rt; target(&program, guar, at, None) == Some(seen));
    assert!(rt; target(&program, Instance::Init(ThreadNo(2)), None, None) == other);
    assert!(rt; target(&program, Instance::Init(ThreadNo(3)), None, None).is_none());
    assert!(rt; target(&program, Instance::Env(f, f), at, told) == at);
    assert!(rt; target(&program, Instance::Env(f, f), other, told).is_none());
    let inter = Instance::Inter(f, f, EdgeNo(1));
    assert!(rt; target(&program, inter, at, other) == at);
    assert!(rt; target(&program, inter, at, at).is_none());
    Ok(())
}

#[test]
fn laws_are_called() {
    atoms_are_placed();
    cases_are_unique();
    closed_sets_cover();
    facts_are_given();
    given_atoms_hold();
    instances_are_exact();
    locations_and_edges_are_homes();
    posts_are_unique();
    premises_have_homes();
    starts_are_described();
    targets_are_by_homes();
    own_steps_are_described();
    own_steps_are_told();
    tables_are_unique();
    stored_values_tell_what_they_stand_for();
    the_least_set_is_closed();
    told_steps_are_described();
    interfering_steps_are_described();
    where_nothing_fails_no_run_does();
    without_predicates_each_instance_gives_its_home();
}
