ghost use Rattle.std.specs.Prelude.{◌≡◌, ◌+◌, ◌<◌, ◌≤◌, Some, length, slice_get, IfOk, OnOk};
ghost use Rattle.predicate_sets.specs.Sets.{HasHome, set_at};
ghost use Rattle.transition_formula.specs.Program.{at_number, IsProgram};
ghost use Rattle.horn_rules.specs.Home.{homes};
ghost use Rattle.horn_rules.specs.Job.{IsJob};
ghost use Rattle.horn_rules.specs.Stored.{instance_of};
ghost use Rattle.serial_fix.specs.inside.Found.{IsInserted};
ghost use Rattle.serial_fix.specs.inside.Looked.{AreLookedAt, place_in_run};
ghost use Rattle.serial_fix.specs.inside.Run.{InstanceIsSettled, IsInstance, IsPosted, IsRun, IsStep};

use crate::found::Found;
use abstract_post::post;
use horn_rules::{Job, PostAnswer, Premise};
use predicate_sets::Sets;
use std::alloc::AllocError;
use thr_base::{Epoch, Fact, HomeNo, Instance, Limits};
use transition_formula::Program;

/// What became of an instance: what it gives is there, or the run ends with it.
#[derive(Clone, Copy)]
pub(crate) enum Step {
    Done,
    Stopped(Ending),
}

/// Why a run ends early: the solver left an instance, a further fact was posted, or there was a further instance.
#[derive(Clone, Copy)]
pub(crate) enum Ending {
    Leaves,
    TooManyFacts,
    TooManyJobs,
}

/// Counts an instance over facts that are there as a job, posts it, and adds the fact that it gives where that is new.
pub(crate) fn add(
    program: &Program,
    sets: &Sets,
    limits: Limits,
    found: &mut Found,
    home: HomeNo,
    instance: Instance,
    premises: (Option<Premise>, Option<Premise>),
) -> Result<Step, AllocError>
    requires run { IsRun program.now sets.now found.old }
    requires instance { IsInstance program.now sets.now found.old.facts instance premises.0 premises.1 home.0 }
    requires looked { AreLookedAt program.now sets.now found.old (place_in_run (instance_of instance)) }
    ensures { IfOk result (IsStep program.now sets.now limits found.old found.new (place_in_run (instance_of instance) + 1) (InstanceIsSettled program.now sets.now instance premises.0 premises.1 home.0)) }
{
    if found.jobs() >= limits.jobs {
        return Ok(Step::Stopped(Ending::TooManyJobs));
    }
    found.count_job();
    post_job(program, sets, limits, found, home, instance, premises)
}

/// Posts an instance. Where its home has no predicates and a fact, it can give nothing else, and no rows are made.
fn post_job(
    program: &Program,
    sets: &Sets,
    limits: Limits,
    found: &mut Found,
    home: HomeNo,
    instance: Instance,
    premises: (Option<Premise>, Option<Premise>),
) -> Result<Step, AllocError>
    requires run { IsRun program.now sets.now found.old }
    requires instance { IsInstance program.now sets.now found.old.facts instance premises.0 premises.1 home.0 }
    ensures { IfOk result (IsPosted program.now sets.now limits found.old found.new (InstanceIsSettled program.now sets.now instance premises.0 premises.1 home.0)) }
{
    let target = sets.at(home)?;
    if target.atoms().is_empty() && found.stands_at(home) {
        return Ok(Step::Done);
    }
    let (first, second) = premises;
    let job = Job {
        program,
        worker: 1,
        instance,
        home,
        epoch: Epoch(0),
        first,
        second,
        target,
    };
    let answer = post(found.allocator(), program, job)?;
    match answer {
        PostAnswer::Posted(posted) => insert(found, home, posted.held(), limits.facts),
        PostAnswer::Left(..) => Ok(Step::Stopped(Ending::Leaves)),
    }
}

/// Adds a fact at a home where something is held there and it is new, if there are fewer than `most`.
fn insert(
    found: &mut Found,
    home: HomeNo,
    held: Option<u128>,
    most: u32,
) -> Result<Step, AllocError>
    requires from_1 { 0 < home.0 }
    requires to_last { home.0 ≤ found.old.homes }
    ensures { IfOk result (IsInserted found.old most home held found.new) }
{
    let Some(held) = held else {
        return Ok(Step::Done);
    };
    let fact = Fact { home, held };
    if found.holds(fact) {
        return Ok(Step::Done);
    }
    if found.facts().len() >= most as usize {
        return Ok(Step::Stopped(Ending::TooManyFacts));
    }
    found.push(fact)?;
    Ok(Step::Done)
}
