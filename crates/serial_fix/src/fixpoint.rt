ghost use Rattle.std.specs.Prelude.{◌≡◌, ◌+◌, ◌≤◌, ◌<◌, length, IfOk};
ghost use Rattle.horn_rules.specs.Instance.{Env as Environment};
ghost use Rattle.horn_rules.specs.Stored.{fact_of, AreStoredSetsOf};
ghost use Rattle.serial_fix.specs.Least.{IsLeastAnswer};
ghost use Rattle.serial_fix.specs.inside.Looked.{AreLookedAt, IsKnown, first_pair, place_in_run, turn};
ghost use Rattle.serial_fix.specs.inside.Run.{AnswersEarly, AreAllSettled, BothAreSettled, IsLookedAt, IsRun, IsStep, PairsAreSettled, StartsAreSettled};

use crate::found::Found;
use crate::run::{Known, environment_step, nth, own_steps, start};
use crate::step::{Ending, Step};
use horn_rules::home_count;
use predicate_sets::Sets;
use std::alloc::{AllocError, Global};
use thr_base::{Fact, Limits, ThreadNo};
use transition_formula::Program;

/// The least set of facts, or why it was not found: the solver left an instance over it, or a limit is too low for it.
#[derive(Drop)]
pub enum LeastAnswer {
    Facts(Vec<Fact>),
    Leaves,
    TooManyFacts,
    TooManyJobs,
}

/// The facts that can be derived from nothing by rely-guarantee, where homes have these predicates: each fact that was found is
/// looked at once, in order, with those before it. Each instance over them counts as a job.
pub fn least(
    alloc: Global,
    program: &Program,
    sets: &Sets,
    limits: Limits,
) -> Result<LeastAnswer, AllocError>
    requires { AreStoredSetsOf program.now sets.now }
    ensures { IfOk result (IsLeastAnswer program.now sets.now limits) }
{
    let threads = program.threads();
    let mut found = Found::new(alloc, home_count(program))?;
    let started = starts(program, sets, limits, &mut found, threads)?;
    match started {
        Step::Stopped(ending) => return Ok(early(ending)),
        Step::Done => {}
    }
    let finished = rounds(program, sets, limits, &mut found)?;
    match finished {
        Step::Stopped(ending) => Ok(early(ending)),
        Step::Done => Ok(LeastAnswer::Facts(found.into_facts())),
    }
}

/// The answer of a run that ends early.
fn early(ending: Ending) -> LeastAnswer
    ensures { AnswersEarly ending result }
{
    match ending {
        Ending::Leaves => LeastAnswer::Leaves,
        Ending::TooManyFacts => LeastAnswer::TooManyFacts,
        Ending::TooManyJobs => LeastAnswer::TooManyJobs,
    }
}

/// The starts of all threads.
fn starts(
    program: &Program,
    sets: &Sets,
    limits: Limits,
    found: &mut Found,
    threads: u32,
) -> Result<Step, AllocError>
    requires run { IsRun program.now sets.now found.old }
    requires threads { threads ≡ length program.now.threads }
    requires looked { AreLookedAt program.now sets.now found.old 1 }
    ensures { IfOk result (IsStep program.now sets.now limits found.old found.new (turn 1 0) (StartsAreSettled program.now sets.now)) }
{
    for i in 0..threads {
        let step = start(program, sets, limits, found, ThreadNo(i + 1))?;
        match step {
            Step::Stopped(ending) => return Ok(Step::Stopped(ending)),
            Step::Done => {}
        }
    }
    Ok(Step::Done)
}

/// Looks at each fact, those that are found meanwhile too.
fn rounds(
    program: &Program,
    sets: &Sets,
    limits: Limits,
    found: &mut Found,
) -> Result<Step, AllocError>
    requires run { IsRun program.now sets.now found.old }
    requires starts { StartsAreSettled program.now sets.now found.old.facts }
    requires looked { AreLookedAt program.now sets.now found.old (turn 1 0) }
    ensures { IfOk result (IsStep program.now sets.now limits found.old found.new (turn (length found.new.facts + 1) 0) (AreAllSettled program.now sets.now)) }
{
    let mut next = 0;
    while next < found.facts().len() as u32 {
        let step = look_at(program, sets, limits, found, next)?;
        match step {
            Step::Stopped(ending) => return Ok(Step::Stopped(ending)),
            Step::Done => {}
        }
        next += 1;
    }
    Ok(Step::Done)
}

/// The instances of the n-th fact, from 0, alone and with each of those before it.
fn look_at(
    program: &Program,
    sets: &Sets,
    limits: Limits,
    found: &mut Found,
    n: u32,
) -> Result<Step, AllocError>
    requires run { IsRun program.now sets.now found.old }
    requires there { n < length found.old.facts }
    requires looked { AreLookedAt program.now sets.now found.old (turn (n + 1) 0) }
    ensures { IfOk result (IsStep program.now sets.now limits found.old found.new (turn (n + 2) 0) (IsLookedAt program.now sets.now n found.old.facts)) }
{
    let known = nth(program, found, n);
    let own = own_steps(program, sets, limits, found, known)?;
    match own {
        Step::Stopped(ending) => Ok(Step::Stopped(ending)),
        Step::Done => pairs(program, sets, limits, found, known, n),
    }
}

/// The environment steps of a fact and each of the first n.
fn pairs(
    program: &Program,
    sets: &Sets,
    limits: Limits,
    found: &mut Found,
    known: Known,
    n: u32,
) -> Result<Step, AllocError>
    requires run { IsRun program.now sets.now found.old }
    requires known { IsKnown program.now found.old.facts known }
    requires few { n ≤ length found.old.facts }
    requires id { known.id.0 ≡ n + 1 }
    requires looked { AreLookedAt program.now sets.now found.old (turn (n + 1) first_pair) }
    ensures { IfOk result (IsStep program.now sets.now limits found.old found.new (turn (n + 2) 0) (PairsAreSettled program.now sets.now (fact_of program.now known.fact) n found.old.facts)) }
{
    for m in 0..n {
        let other = nth(program, found, m);
        let step = both_ways(program, sets, limits, found, known, other)?;
        match step {
            Step::Stopped(ending) => return Ok(Step::Stopped(ending)),
            Step::Done => {}
        }
    }
    Ok(Step::Done)
}

/// The environment steps of two facts, each at the other.
fn both_ways(
    program: &Program,
    sets: &Sets,
    limits: Limits,
    found: &mut Found,
    one: Known,
    other: Known,
) -> Result<Step, AllocError>
    requires run { IsRun program.now sets.now found.old }
    requires one { IsKnown program.now found.old.facts one }
    requires other { IsKnown program.now found.old.facts other }
    requires before { other.id.0 < one.id.0 }
    requires looked { AreLookedAt program.now sets.now found.old (place_in_run (Environment one.id.0 other.id.0)) }
    ensures { IfOk result (IsStep program.now sets.now limits found.old found.new (place_in_run (Environment other.id.0 one.id.0) + 1) (BothAreSettled program.now sets.now (fact_of program.now one.fact) (fact_of program.now other.fact))) }
{
    let step = environment_step(program, sets, limits, found, one, other)?;
    match step {
        Step::Stopped(ending) => Ok(Step::Stopped(ending)),
        Step::Done => environment_step(program, sets, limits, found, other, one),
    }
}
