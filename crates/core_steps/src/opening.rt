ghost use Rattle.std.specs.Prelude.{◌≡◌, ◌≤◌, [], length, map, IfOk};
ghost use Rattle.thr_base.specs.Limits.{AreAllowed, most_workers};
ghost use Rattle.horn_rules.specs.Stored.{AreStoredSetsOf};
ghost use Rattle.core_steps.specs.Laws.{most_events};

use crate::stored_core::Core;
use fact_table::Table;
use horn_rules::home_count;
use pending_instances::PendingInstances;
use predicate_sets::{HomeSet, Sets};
use std::alloc::{AllocError, Global};
use std::sync::Arc;
use thr_base::{HomeNo, Limits, RuleName};
use transition_formula::Program;

impl<'p> Core<'p> {
    /// A run over the program with these predicates, without an event. All room that it needs is reserved here.
    pub fn open(
        alloc: Global,
        program: &'p Program,
        sets: Sets,
        rule: RuleName,
        limits: Limits,
        workers: u32,
    ) -> Result<Core<'p>, AllocError>
        requires sets { AreStoredSetsOf program.now sets }
        requires limits { AreAllowed limits }
        requires some_workers { 1 ≤ workers }
        requires few_workers { workers ≤ most_workers }
        ensures { IfOk result (λ core. core ≡ record { program = program.now; start = sets; rule = rule; limits = limits; workers = workers; history = [] }) }
    {
        let _threads = program.threads(); // its contract says that it is a program
        let homes = home_count(program);
        let copy = copy_of(alloc, &sets, homes)?;
        let lists = lists_of(alloc, &sets, homes)?;
        let epochs = vec![in alloc; 0; homes as usize]?;
        let table = Table::new(alloc, homes, limits.facts)?;
        let waiting = PendingInstances::new(alloc, program, rule, limits.facts)?;
        let holds = vec![in alloc; None; workers as usize]?;
        let claims = vec![in alloc; None; workers as usize]?;
        let journal = Vec::with_capacity(alloc, most_events(limits, workers))?;
        Ok(Core {
            program,
            start: sets,
            rule,
            limits,
            workers,
            sets: copy,
            lists,
            epochs,
            table,
            waiting,
            holds,
            claims,
            published: 0,
            refined: 0,
            stopped: None,
            journal,
        })
    }
}

/// The same lists.
pub(crate) fn copy_of(alloc: Global, sets: &Sets, homes: u32) -> Result<Sets, AllocError>
    requires { length sets.now ≡ homes }
    ensures { IfOk result (λ copy. copy ≡ sets.now) }
{
    let mut copy = Sets::new(alloc, homes)?;
    for place in 0..homes {
        copy.put(HomeNo(place + 1), sets.at(HomeNo(place + 1))?);
    }
    Ok(copy)
}

/// The list of each home, shared.
pub(crate) fn lists_of(
    alloc: Global,
    sets: &Sets,
    homes: u32,
) -> Result<Vec<Arc<HomeSet>>, AllocError>
    requires { length sets.now ≡ homes }
    ensures { IfOk result (λ lists. map (λ list. list.value) lists.items ≡ sets.now) }
{
    let mut lists = Vec::new(alloc);
    for place in 0..homes {
        lists.push(sets.at(HomeNo(place + 1))?)?;
    }
    Ok(lists)
}

/// How many events there may be at most.
fn most_events(limits: Limits, workers: u32) -> usize
    requires limits { AreAllowed limits }
    requires workers { workers ≤ most_workers }
    ensures { result ≡ most_events limits workers }
{
    let workers = workers as usize;
    let refinements = limits.refinements as usize;
    let drops = workers * (refinements + 1);
    2 * (limits.jobs as usize + workers) + workers + 2 * refinements + 6 * drops + 3
}
