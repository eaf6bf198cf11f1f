ghost use Rattle.std.specs.Prelude.{◌≡◌, ◌+◌, ◌<◌, ◌≤◌, IfOk};
ghost use Rattle.pending_instances.specs.inside.Together.{AreTogether};

use super::*;
use fact_table::{Inserted, Table};
use horn_rules::{home_count, two_bare_threads};
use instance_cursors::{EdgeHomes, HomeKind, HomeOf};
use std::alloc::{AllocError, Global};
use std::test::Fail;
use thr_base::{EdgeNo, Fact, FactId, HomeNo, Instance, RuleName, ThreadNo};
use transition_formula::Program;

fn edge(thread: u32, edge: u32, ends: (u32, u32), told: u32, to_failing: u32) -> EdgeHomes {
    EdgeHomes {
        thread: ThreadNo(thread),
        edge: EdgeNo(edge),
        source: HomeNo(ends.0),
        target: HomeNo(ends.1),
        told: HomeNo(told),
        to_failing,
    }
}

/// Homes 1 to 3 are the first thread's locations, 4 to 7 the second's; 8 to 10 are edges.
#[test]
fn a_layout_of_two_threads(rt: HostRuntime) -> Result<(), Fail> {
    let alloc = rt.alloc();
    let program = two_bare_threads(alloc)?;
    let layout = layout_of(alloc, &program, RuleName::Og)?;
    assert_eq!(rt; layout.edge_count(), 3);
    assert_eq!(rt; layout.edge(0), Some(edge(1, 1, (2, 3), 8, 1)));
    assert_eq!(rt; layout.edge(1), Some(edge(1, 2, (3, 1), 9, 0)));
    assert_eq!(rt; layout.edge(2), Some(edge(2, 1, (5, 7), 10, u32::MAX)));
    let second = HomeOf {
        thread: ThreadNo(2),
        kind: HomeKind::Step,
    };
    assert_eq!(rt; layout.home(HomeNo(10)), Some(second));
    assert_eq!(rt; layout.home(HomeNo(11)), None);
    Ok(())
}

/// The home of the thread's start, from 1.
fn start_home(alloc: Global, place: usize) -> Result<Option<HomeNo>, AllocError> {
    let program = two_bare_threads(alloc)?;
    let starts = starts_of(alloc, &program)?;
    Ok(starts.get(place).map(|start| start.home))
}

#[test]
fn starts_of_two_threads(rt: HostRuntime) -> Result<(), Fail> {
    let alloc = rt.alloc();
    assert_eq!(rt; start_home(alloc, 0)?, Some(HomeNo(2)));
    assert_eq!(rt; start_home(alloc, 1)?, Some(HomeNo(5)));
    assert_eq!(rt; start_home(alloc, 2)?, None);
    Ok(())
}

/// Takes an instance if it is open, and tells the home to which it leads.
fn take(
    program: &Program,
    table: &Table,
    waiting: &mut PendingInstances,
    instance: Instance,
) -> Result<Option<HomeNo>, AllocError>
    requires { AreTogether program.now table.now waiting.old }
    ensures { IfOk result (λ _. AreTogether program.now table.now waiting.new) }
{
    let Some(home) = waiting.home_if_open(instance) else {
        return Ok(None);
    };
    waiting.take(instance)?;
    Ok(Some(home))
}

/// Takes one instance after another. Whether each was open.
fn take_all(
    program: &Program,
    table: &Table,
    waiting: &mut PendingInstances,
    instances: &[Instance],
) -> Result<bool, AllocError>
    requires { AreTogether program.now table.now waiting.old }
    ensures { IfOk result (λ _. AreTogether program.now table.now waiting.new) }
{
    for instance in instances {
        if take(program, table, waiting, *instance)?.is_none() {
            return Ok(false);
        }
    }
    Ok(true)
}

/// A fact without predicates becomes live at a home.
fn come(
    program: &Program,
    table: &mut Table,
    waiting: &mut PendingInstances,
    home: u32,
) -> Option<FactId>
    requires together { AreTogether program.now table.old waiting.old }
    requires few { table.old.given < 9 }
    ensures together { AreTogether program.now table.new waiting.new }
    ensures few { table.new.given ≤ table.old.given + 1 }
{
    if home == 0 {
        return None;
    }
    if home > home_count(program) {
        return None;
    }
    let fact = Fact {
        home: HomeNo(home),
        held: 0,
    };
    match table.insert(fact, Instance::Init(ThreadNo(1))) {
        Inserted::New(id) => {
            let _facts = table.facts(); // its contract says that it is a table
            waiting.came(table);
            Some(id)
        }
        Inserted::Same(_) => None,
        Inserted::Full => None,
    }
}

/// A home changed, and no fact went.
fn change(program: &Program, table: &Table, waiting: &mut PendingInstances, home: u32)
    requires { AreTogether program.now table.now waiting.old }
    ensures { AreTogether program.now table.now waiting.new }
{
    waiting.changed(table, &[HomeNo(home)]);
}

fn init(thread: u32) -> Instance {
    Instance::Init(ThreadNo(thread))
}

fn own(fact: u32, edge: u32) -> Instance {
    Instance::Own(FactId(fact), EdgeNo(edge))
}

fn guar(fact: u32, edge: u32) -> Instance {
    Instance::Guar(FactId(fact), EdgeNo(edge))
}

fn env(fact: u32, told: u32) -> Instance {
    Instance::Env(FactId(fact), FactId(told))
}

fn inter(fact: u32, other: u32, edge: u32) -> Instance {
    Instance::Inter(FactId(fact), FactId(other), EdgeNo(edge))
}

fn next(instance: Instance, home: u32) -> Option<Next> {
    Some(Next {
        instance,
        home: HomeNo(home),
    })
}

#[test]
fn starts_come_first_and_facts_open_steps(rt: HostRuntime) -> Result<(), Fail> {
    let alloc = rt.alloc();
    let program = two_bare_threads(alloc)?;
    let mut table = Table::new(alloc, home_count(&program), 9)?;
    let mut waiting = PendingInstances::new(alloc, &program, RuleName::Rg, 9)?;
    assert_eq!(rt; waiting.choose(ThreadNo(1)), next(init(1), 2));
    assert_eq!(rt; waiting.choose(ThreadNo(2)), next(init(2), 5));
    assert_eq!(rt;
        take(&program, &table, &mut waiting, init(1))?,
        Some(HomeNo(2))
    );
    assert_eq!(rt; take(&program, &table, &mut waiting, init(1))?, None);
    assert_eq!(rt; waiting.choose(ThreadNo(1)), next(init(2), 5));
    assert_eq!(rt;
        come(&program, &mut table, &mut waiting, 2),
        Some(FactId(1))
    );
    assert_eq!(rt; waiting.choose(ThreadNo(1)), next(own(1, 1), 3));
    assert_eq!(rt; waiting.home_if_open(guar(1, 1)), Some(HomeNo(8)));
    assert_eq!(rt; waiting.home_if_open(own(1, 2)), None);
    Ok(())
}

#[test]
fn what_is_taken_opens_again_where_its_home_changes(rt: HostRuntime) -> Result<(), Fail> {
    let alloc = rt.alloc();
    let program = two_bare_threads(alloc)?;
    let mut table = Table::new(alloc, home_count(&program), 9)?;
    let mut waiting = PendingInstances::new(alloc, &program, RuleName::Rg, 9)?;
    assert_eq!(rt;
        come(&program, &mut table, &mut waiting, 2),
        Some(FactId(1))
    );
    assert_eq!(rt;
        come(&program, &mut table, &mut waiting, 10),
        Some(FactId(2))
    );
    let instances = [init(1), init(2), own(1, 1), guar(1, 1), env(1, 2)];
    assert!(rt; take_all(&program, &table, &mut waiting, &instances)?);
    assert_eq!(rt; waiting.choose(ThreadNo(1)), None);
    change(&program, &table, &mut waiting, 8);
    assert_eq!(rt; waiting.choose(ThreadNo(1)), next(guar(1, 1), 8));
    change(&program, &table, &mut waiting, 2);
    assert_eq!(rt; waiting.choose(ThreadNo(1)), next(init(1), 2));
    assert_eq!(rt; waiting.home_if_open(env(1, 2)), Some(HomeNo(2)));
    Ok(())
}

#[test]
fn steps_meet_the_facts_of_other_threads(rt: HostRuntime) -> Result<(), Fail> {
    let alloc = rt.alloc();
    let program = two_bare_threads(alloc)?;
    let mut table = Table::new(alloc, home_count(&program), 9)?;
    let mut waiting = PendingInstances::new(alloc, &program, RuleName::Og, 9)?;
    assert_eq!(rt;
        come(&program, &mut table, &mut waiting, 2),
        Some(FactId(1))
    );
    assert_eq!(rt;
        come(&program, &mut table, &mut waiting, 5),
        Some(FactId(2))
    );
    assert_eq!(rt;
        take(&program, &table, &mut waiting, inter(1, 2, 1))?,
        Some(HomeNo(2))
    );
    assert_eq!(rt;
        take(&program, &table, &mut waiting, inter(2, 1, 1))?,
        Some(HomeNo(5))
    );
    assert_eq!(rt; take(&program, &table, &mut waiting, inter(2, 1, 2))?, None);
    assert_eq!(rt; take(&program, &table, &mut waiting, guar(1, 1))?, None);
    assert_eq!(rt;
        take(&program, &table, &mut waiting, own(2, 1))?,
        Some(HomeNo(7))
    );
    Ok(())
}

#[test]
fn laws_are_called() {
    begun_cursors_have_what_leads();
    changed_homes_reopen_what_leads();
    comers_open_what_leads();
    cursors_stay_for_their_program();
    turns_are_instances_that_lead();
}
