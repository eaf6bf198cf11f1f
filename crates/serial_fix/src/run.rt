ghost use Rattle.std.specs.Prelude.{◌≡◌, ◌+◌, ◌<◌, Some, length, slice_get, IsSome, IfOk};
ghost use Rattle.std.specs.List.{AllByRecursion};
ghost use Rattle.horn_rules.specs.Instance.{Init, Own, Guar, Env as Environment};
ghost use Rattle.predicate_sets.specs.Sets.{HasHome, set_at};
ghost use Rattle.transition_formula.specs.Program.{Thread, IsEdgeOf, at_number};
ghost use Rattle.transition_formula.specs.Program as specs;
ghost use Rattle.transition_formula.specs.Stored.{edge_of};
ghost use Rattle.horn_rules.specs.Instances.{tells_another};
ghost use Rattle.horn_rules.specs.Stored.{fact_of, home_of, HasItsHome};
ghost use Rattle.horn_rules.specs.Home.{State, homes};
ghost use Rattle.serial_fix.specs.inside.Looked.{AreLookedAt, IsKnown, first_pair, place_in_run, turn};
ghost use Rattle.serial_fix.specs.inside.Run.{EdgeIsSettled, GuarIsSettled, HasEdge, IsFrom, IsRun, IsStep, OwnAreSettled, OwnIsSettled, PairIsSettled, StartIsSettled};

use crate::found::Found;
use crate::step::{Step, add};
use horn_rules::{Premise, named, number};
use predicate_sets::Sets;
use std::alloc::AllocError;
use thr_base::{EdgeNo, Fact, FactId, Home, Instance, Limits, Loc, ThreadNo};
use transition_formula::{Edge, Program};

/// A fact that was found, with its number and its home.
#[derive(Clone, Copy)]
pub(crate) struct Known {
    id: FactId,
    fact: Fact,
    home: Home,
}

/// The n-th fact, from 0.
pub(crate) fn nth(program: &Program, found: &Found, n: u32) -> Known
    requires there { n < length found.now.facts }
    requires homes { AllByRecursion (HasItsHome program.now) found.now.facts }
    ensures at { slice_get found.now.facts n ≡ Some result.fact }
    ensures id { result.id.0 ≡ n + 1 }
    ensures home { at_number (homes program.now) result.fact.home.0 ≡ Some (home_of result.home) }
{
    let fact = found.facts()[n as usize];
    Known {
        id: FactId(n + 1),
        fact,
        home: named(program, fact.home),
    }
}

/// A fact as a premise.
fn as_premise(sets: &Sets, known: Known) -> Result<Premise, AllocError>
    requires { HasHome sets.now known.fact.home.0 }
    ensures id { IfOk result (λ premise. premise.id ≡ known.id) }
    ensures fact { IfOk result (λ premise. premise.fact ≡ known.fact) }
    ensures set { IfOk result (λ premise. premise.set.value ≡ set_at sets.now known.fact.home.0) }
{
    Ok(Premise {
        id: known.id,
        fact: known.fact,
        set: sets.at(known.fact.home)?,
    })
}

/// A thread's edge.
fn edge_at(program: &Program, i: ThreadNo, e: EdgeNo) -> &Edge
    requires { HasEdge program.now i.0 e.0 }
    ensures { (thread : Thread) (edge : specs.Edge) → IsEdgeOf program.now i.0 e.0 thread edge → edge_of result.now ≡ edge }
{
    &program.edges(i)[e.0 as usize - 1]
}

/// The start of a thread.
pub(crate) fn start(
    program: &Program,
    sets: &Sets,
    limits: Limits,
    found: &mut Found,
    i: ThreadNo,
) -> Result<Step, AllocError>
    requires run { IsRun program.now sets.now found.old }
    requires thread { IsSome (at_number program.now.threads i.0) }
    requires looked { AreLookedAt program.now sets.now found.old (place_in_run (Init i.0)) }
    ensures { IfOk result (IsStep program.now sets.now limits found.old found.new (place_in_run (Init i.0) + 1) (StartIsSettled program.now sets.now i.0)) }
{
    let home = number(program, Home::State(i, Loc(1)));
    add(
        program,
        sets,
        limits,
        found,
        home,
        Instance::Init(i),
        (None, None),
    )
}

/// A fact's own step by an edge that leaves its location.
fn own_step(
    program: &Program,
    sets: &Sets,
    limits: Limits,
    found: &mut Found,
    known: Known,
    i: ThreadNo,
    e: EdgeNo,
) -> Result<Step, AllocError>
    requires run { IsRun program.now sets.now found.old }
    requires known { IsKnown program.now found.old.facts known }
    requires from { IsFrom program.now i.0 e.0 (fact_of program.now known.fact) }
    requires looked { AreLookedAt program.now sets.now found.old (place_in_run (Own known.id.0 e.0)) }
    ensures { IfOk result (IsStep program.now sets.now limits found.old found.new (place_in_run (Own known.id.0 e.0) + 1) (OwnIsSettled program.now sets.now i.0 e.0 (fact_of program.now known.fact))) }
{
    let to = edge_at(program, i, e).to;
    let home = number(program, Home::State(i, to));
    let first = as_premise(sets, known)?;
    let instance = Instance::Own(known.id, e);
    add(
        program,
        sets,
        limits,
        found,
        home,
        instance,
        (Some(first), None),
    )
}

/// That step as the other threads see it.
fn guarantee(
    program: &Program,
    sets: &Sets,
    limits: Limits,
    found: &mut Found,
    known: Known,
    i: ThreadNo,
    e: EdgeNo,
) -> Result<Step, AllocError>
    requires run { IsRun program.now sets.now found.old }
    requires known { IsKnown program.now found.old.facts known }
    requires from { IsFrom program.now i.0 e.0 (fact_of program.now known.fact) }
    requires looked { AreLookedAt program.now sets.now found.old (place_in_run (Guar known.id.0 e.0)) }
    ensures { IfOk result (IsStep program.now sets.now limits found.old found.new (place_in_run (Guar known.id.0 e.0) + 1) (GuarIsSettled program.now sets.now i.0 e.0 (fact_of program.now known.fact))) }
{
    let home = number(program, Home::Env(i, e));
    let first = as_premise(sets, known)?;
    let instance = Instance::Guar(known.id, e);
    add(
        program,
        sets,
        limits,
        found,
        home,
        instance,
        (Some(first), None),
    )
}

/// The steps of a fact at a location by an edge of its thread, where that leaves the location.
fn edge_steps(
    program: &Program,
    sets: &Sets,
    limits: Limits,
    found: &mut Found,
    known: Known,
    at: (ThreadNo, Loc),
    e: EdgeNo,
) -> Result<Step, AllocError>
    requires run { IsRun program.now sets.now found.old }
    requires known { IsKnown program.now found.old.facts known }
    requires at { (fact_of program.now known.fact).home ≡ State at.0.0 at.1.0 }
    requires edge { HasEdge program.now at.0.0 e.0 }
    requires looked { AreLookedAt program.now sets.now found.old (place_in_run (Own known.id.0 e.0)) }
    ensures { IfOk result (IsStep program.now sets.now limits found.old found.new (place_in_run (Guar known.id.0 e.0) + 1) (EdgeIsSettled program.now sets.now at.0.0 e.0 (fact_of program.now known.fact))) }
{
    let (i, l) = at;
    if edge_at(program, i, e).from != l {
        return Ok(Step::Done);
    }
    let own = own_step(program, sets, limits, found, known, i, e)?;
    match own {
        Step::Stopped(ending) => Ok(Step::Stopped(ending)),
        Step::Done => guarantee(program, sets, limits, found, known, i, e),
    }
}

/// The steps of a fact at a location by all edges that leave it.
fn steps_from(
    program: &Program,
    sets: &Sets,
    limits: Limits,
    found: &mut Found,
    known: Known,
    at: (ThreadNo, Loc),
) -> Result<Step, AllocError>
    requires run { IsRun program.now sets.now found.old }
    requires known { IsKnown program.now found.old.facts known }
    requires at { (fact_of program.now known.fact).home ≡ State at.0.0 at.1.0 }
    requires thread { IsSome (at_number program.now.threads at.0.0) }
    requires looked { AreLookedAt program.now sets.now found.old (turn known.id.0 0) }
    ensures { IfOk result (IsStep program.now sets.now limits found.old found.new (turn known.id.0 first_pair) (OwnAreSettled program.now sets.now (fact_of program.now known.fact))) }
{
    let edges = program.edges(at.0).len() as u32;
    for e in 0..edges {
        let step = edge_steps(program, sets, limits, found, known, at, EdgeNo(e + 1))?;
        match step {
            Step::Stopped(ending) => return Ok(Step::Stopped(ending)),
            Step::Done => {}
        }
    }
    Ok(Step::Done)
}

/// All steps of a fact's own thread from it.
pub(crate) fn own_steps(
    program: &Program,
    sets: &Sets,
    limits: Limits,
    found: &mut Found,
    known: Known,
) -> Result<Step, AllocError>
    requires run { IsRun program.now sets.now found.old }
    requires known { IsKnown program.now found.old.facts known }
    requires looked { AreLookedAt program.now sets.now found.old (turn known.id.0 0) }
    ensures { IfOk result (IsStep program.now sets.now limits found.old found.new (turn known.id.0 first_pair) (OwnAreSettled program.now sets.now (fact_of program.now known.fact))) }
{
    match known.home {
        Home::State(i, l) => steps_from(program, sets, limits, found, known, (i, l)),
        Home::Env(..) => Ok(Step::Done),
    }
}

/// The step of another thread of which the second fact tells, where the first is at a location and the second tells of one.
pub(crate) fn environment_step(
    program: &Program,
    sets: &Sets,
    limits: Limits,
    found: &mut Found,
    one: Known,
    told: Known,
) -> Result<Step, AllocError>
    requires run { IsRun program.now sets.now found.old }
    requires one { IsKnown program.now found.old.facts one }
    requires told { IsKnown program.now found.old.facts told }
    requires looked { AreLookedAt program.now sets.now found.old (place_in_run (Environment one.id.0 told.id.0)) }
    ensures { IfOk result (IsStep program.now sets.now limits found.old found.new (place_in_run (Environment one.id.0 told.id.0) + 1) (PairIsSettled program.now sets.now (fact_of program.now one.fact) (fact_of program.now told.fact))) }
{
    if !tells_another(one.home, told.home) {
        return Ok(Step::Done);
    }
    let first = as_premise(sets, one)?;
    let second = as_premise(sets, told)?;
    let instance = Instance::Env(one.id, told.id);
    let premises = (Some(first), Some(second));
    add(
        program,
        sets,
        limits,
        found,
        one.fact.home,
        instance,
        premises,
    )
}

/// Whether one home is at a location of a thread, and the other tells of another thread's steps.
fn tells_another(one: Home, told: Home) -> bool
    ensures { result ≡ tells_another (home_of one) (home_of told) }
{
    match (one, told) {
        (Home::State(k, _), Home::Env(i, _)) => k != i,
        _ => false,
    }
}
