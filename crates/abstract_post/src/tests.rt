ghost use Rattle.std.specs.Prelude.{◌≡◌, ◌^◌, ◌<◌, length, IfOk, OnOk};
ghost use Rattle.predicate_sets.specs.Sets.{set_at};
ghost use Rattle.transition_formula.specs.AtomText.{atom_width};
ghost use Rattle.transition_formula.specs.inside.Worked.{worked_program};
ghost use Rattle.abstract_post.specs.inside.Worked.{AreAtomsOver, IsAtomSetOver};

use super::*;
use crate::deciding::Found;
use farkas_cert::LeaveKind;
use horn_rules::{Job, PostAnswer, Premise};
use predicate_sets::{HomeSet, Sets};
use std::alloc::{AllocError, Global};
use std::sync::Arc;
use std::test::Fail;
use thr_base::{EdgeNo, Epoch, Fact, FactId, HomeNo, Instance, ThreadNo};
use transition_formula::{Program, read_atom, two_threads};

/// Adds the predicate that is written, if it is one.
fn add(
    alloc: Global,
    sets: &mut Sets,
    program: &Program,
    text: &[u8],
    env: bool,
) -> Result<(), AllocError>
    requires one { length sets.old ≡ 1 }
    requires atoms { AreAtomsOver (atom_width program.now.columns env) (set_at sets.old 1) }
    ensures one { OnOk result (length sets.new ≡ 1) }
    ensures atoms { OnOk result (AreAtomsOver (atom_width program.now.columns env) (set_at sets.new 1)) }
{
    match read_atom(alloc, program, text, env)? {
        Some(atom) => {
            let _ = sets.add(HomeNo(1), atom);
            Ok(())
        }
        None => Ok(()),
    }
}

/// The predicates that are written, over a state, or over the states before and after a step.
fn predicates(
    alloc: Global,
    program: &Program,
    first: &[u8],
    second: &[u8],
    env: bool,
) -> Result<Arc<HomeSet>, AllocError>
    ensures { IfOk result (λ set. IsAtomSetOver (atom_width program.now.columns env) set.value) }
{
    let mut sets = Sets::new(alloc, 1)?;
    add(alloc, &mut sets, program, first, env)?;
    add(alloc, &mut sets, program, second, env)?;
    let set = sets.at(HomeNo(1))?;
    let _ = set.atoms(); // its contract says that they are distinct
    Ok(set)
}

/// A word that holds the first position, where there is one.
#[tactic(auto, using(crate::proofs::WorkedJobs::first_below))]
fn first_held(count: usize) -> u128
    ensures { result < 2 ^ count }
{
    if count == 0 { 0 } else { 1 }
}

/// A premise that says the first predicate of a set, where there is one.
fn premise(home: u32, set: Arc<HomeSet>) -> Premise
    ensures id { result.id.0 ≡ 1 }
    ensures home { result.fact.home.0 ≡ home }
    ensures set { result.set.value ≡ set.value }
    ensures within { result.fact.held < 2 ^ length result.set.value }
{
    let held = first_held(set.atoms().len());
    Premise {
        id: FactId(1),
        fact: Fact {
            home: HomeNo(home),
            held,
        },
        set,
    }
}

fn found_in(answer: PostAnswer<'_>) -> Found {
    match answer {
        PostAnswer::Posted(posted) => match posted.held() {
            None => Found::Refuted,
            Some(held) => Found::Held(held),
        },
        PostAnswer::Left(_, kind) => Found::Left(kind),
    }
}

/// What the first thread's start gives of two predicates.
fn start(alloc: Global, program: &Program, first: &[u8], second: &[u8]) -> Result<Found, AllocError>
    requires { program.now ≡ worked_program }
{
    let target = predicates(alloc, program, first, second, false)?;
    let job = Job {
        program,
        worker: 1,
        instance: Instance::Init(ThreadNo(1)),
        home: HomeNo(2),
        epoch: Epoch(0),
        first: None,
        second: None,
        target,
    };
    Ok(found_in(post(alloc, program, job)?))
}

/// What the second thread's step gives of two predicates after it, from one before it.
fn own(
    alloc: Global,
    program: &Program,
    said: &[u8],
    first: &[u8],
    second: &[u8],
) -> Result<Found, AllocError>
    requires { program.now ≡ worked_program }
{
    let premise = premise(5, predicates(alloc, program, said, b"", false)?);
    let target = predicates(alloc, program, first, second, false)?;
    let job = Job {
        program,
        worker: 1,
        instance: Instance::Own(FactId(1), EdgeNo(1)),
        home: HomeNo(6),
        epoch: Epoch(0),
        first: Some(premise),
        second: None,
        target,
    };
    Ok(found_in(post(alloc, program, job)?))
}

/// What it tells the first thread of two predicates on it.
fn guar(
    alloc: Global,
    program: &Program,
    said: &[u8],
    first: &[u8],
    second: &[u8],
) -> Result<Found, AllocError>
    requires { program.now ≡ worked_program }
{
    let premise = premise(5, predicates(alloc, program, said, b"", false)?);
    let target = predicates(alloc, program, first, second, true)?;
    let job = Job {
        program,
        worker: 1,
        instance: Instance::Guar(FactId(1), EdgeNo(1)),
        home: HomeNo(8),
        epoch: Epoch(0),
        first: Some(premise),
        second: None,
        target,
    };
    Ok(found_in(post(alloc, program, job)?))
}

/// What the first thread, at its start, knows after that step, of which a predicate is told.
fn env(
    alloc: Global,
    program: &Program,
    said: &[u8],
    told: &[u8],
    first: &[u8],
) -> Result<Found, AllocError>
    requires { program.now ≡ worked_program }
{
    let stays = premise(2, predicates(alloc, program, said, b"", false)?);
    let steps = premise(8, predicates(alloc, program, told, b"", true)?);
    let target = predicates(alloc, program, said, first, false)?;
    let job = Job {
        program,
        worker: 1,
        instance: Instance::Env(FactId(1), FactId(1)),
        home: HomeNo(2),
        epoch: Epoch(0),
        first: Some(stays),
        second: Some(steps),
        target,
    };
    Ok(found_in(post(alloc, program, job)?))
}

#[test]
fn a_start_holds_what_follows_from_the_starts_of_columns(rt: HostRuntime) -> Result<(), Fail> {
    let alloc = rt.alloc();
    let program = two_threads(alloc)?;
    let found = start(alloc, &program, b"x <= 0", b"x <= -1")?;
    assert_eq!(rt; found, Found::Held(1));
    let found = start(alloc, &program, b"t1.l <= 0", b"-x <= 0")?;
    assert_eq!(rt; found, Found::Held(2));
    Ok(())
}

#[test]
fn a_step_holds_what_follows_after_it(rt: HostRuntime) -> Result<(), Fail> {
    let alloc = rt.alloc();
    let program = two_threads(alloc)?;
    let found = own(alloc, &program, b"x <= 3", b"x <= 3", b"x <= 4")?;
    assert_eq!(rt; found, Found::Held(2));
    let found = own(alloc, &program, b"t2.$pc <= 0", b"x <= 3", b"x <= 4")?;
    assert_eq!(rt; found, Found::Refuted);
    Ok(())
}

#[test]
fn a_step_tells_what_follows_before_and_after_it(rt: HostRuntime) -> Result<(), Fail> {
    let alloc = rt.alloc();
    let program = two_threads(alloc)?;
    let found = guar(alloc, &program, b"x <= 3", b"x <= 3", b"x' <= 3")?;
    assert_eq!(rt; found, Found::Held(1));
    let found = guar(alloc, &program, b"", b"-x + x' <= 0", b"-x + x' <= 1")?;
    assert_eq!(rt; found, Found::Held(2));
    Ok(())
}

#[test]
fn a_thread_that_stays_holds_what_follows_from_what_is_told(rt: HostRuntime) -> Result<(), Fail> {
    let alloc = rt.alloc();
    let program = two_threads(alloc)?;
    let found = env(alloc, &program, b"x <= 3", b"-x + x' <= 1", b"x <= 4")?;
    assert_eq!(rt; found, Found::Held(2));
    let found = env(alloc, &program, b"x <= 3", b"-x + x' <= 0", b"x <= 4")?;
    assert_eq!(rt; found, Found::Held(3));
    Ok(())
}

#[test]
fn a_predicate_with_great_numbers_is_left_undecided(rt: HostRuntime) -> Result<(), Fail> {
    let alloc = rt.alloc();
    let program = two_threads(alloc)?;
    let said = b"85070591730234615865843651857942052864*x + t1.l <= 0";
    let asked = b"85070591730234615865843651857942052865*x + t1.l <= 0";
    let found = own(alloc, &program, said, b"x <= 4", asked)?;
    assert_eq!(rt; found, Found::Left(LeaveKind::Overflow));
    Ok(())
}
