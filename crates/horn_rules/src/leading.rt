ghost use Rattle.std.specs.Prelude.{◌≡◌, Some, None, if◌then◌else◌, option_map};
ghost use Rattle.transition_formula.specs.Program.{at_number};
ghost use Rattle.horn_rules.specs.Home.{State};
ghost use Rattle.horn_rules.specs.Instance.{Guar, Inter, Own};
ghost use Rattle.horn_rules.specs.Instances.{of_another, tells_another};
ghost use Rattle.horn_rules.specs.Stored.{home_of, instance_of};
ghost use Rattle.horn_rules.specs.Target.{edge_from, target_at};

use crate::homes::{has_edge, has_thread};
use thr_base::{EdgeNo, Home, Instance, Loc, ThreadNo};
use transition_formula::Program;

/// Where an edge of a thread leads, if it leads on from the location.
fn leads_to(program: &Program, i: ThreadNo, l: Loc, e: EdgeNo) -> Option<Loc>
    ensures { option_map (λ to. to.0) result ≡ option_map (λ edge. edge.to) (edge_from program.now (State i.0 l.0) e.0) }
{
    if !has_edge(program, i, e) {
        return None;
    }
    let edge = program.edge(i, e);
    if edge.from != l {
        return None;
    }
    Some(edge.to)
}

/// The start of a thread, if it is there.
fn start_of(program: &Program, i: ThreadNo) -> Option<Home>
    ensures { option_map home_of result ≡ option_map (λ thread. State i.0 1) (at_number program.now.threads i.0) }
{
    if !has_thread(program, i) {
        return None;
    }
    Some(Home::State(i, Loc(1)))
}

/// Whether the homes are a location of a thread, and an edge of another.
pub fn tells_another(home: Home, told: Home) -> bool
    ensures { result ≡ tells_another (home_of home) (home_of told) }
{
    match (home, told) {
        (Home::State(k, _), Home::Env(i, _)) => k != i,
        _ => false,
    }
}

/// Whether the homes are locations of two threads.
pub fn of_another(home: Home, other: Home) -> bool
    ensures { result ≡ of_another (home_of home) (home_of other) }
{
    match (home, other) {
        (Home::State(k, _), Home::State(i, _)) => k != i,
        _ => false,
    }
}

/// The home of which an own step gives a fact.
fn own_target(program: &Program, home: Home, e: EdgeNo) -> Option<Home>
    ensures { option_map home_of result ≡ target_at program.now (Own home e.0) (Some (home_of home)) None }
{
    let Home::State(i, l) = home else {
        return None;
    };
    let to = leads_to(program, i, l, e)?;
    Some(Home::State(i, to))
}

/// That of the step as the other threads see it.
fn guar_target(program: &Program, home: Home, e: EdgeNo) -> Option<Home>
    ensures { option_map home_of result ≡ target_at program.now (Guar home e.0) (Some (home_of home)) None }
{
    let Home::State(i, l) = home else {
        return None;
    };
    let _to = leads_to(program, i, l, e)?;
    Some(Home::Env(i, e))
}

/// That of a thread that stays in a step by another one's edge.
fn inter_target(program: &Program, home: Home, other: Home, e: EdgeNo) -> Option<Home>
    ensures { option_map home_of result ≡ target_at program.now (Inter home other e.0) (Some (home_of home)) (Some (home_of other)) }
{
    if !of_another(home, other) {
        return None;
    }
    let Home::State(i, l) = other else {
        return None;
    };
    let _to = leads_to(program, i, l, e)?;
    Some(home)
}

/// That of a thread that stays in a step that is told.
fn env_target(home: Home, told: Home) -> Option<Home>
    ensures { option_map home_of result ≡ (if tells_another (home_of home) (home_of told) then Some (home_of home) else None) }
{
    if tells_another(home, told) {
        Some(home)
    } else {
        None
    }
}

/// The home of which an instance gives a fact, where its premises stand at these homes; nothing where it is no instance.
pub fn target(
    program: &Program,
    instance: Instance,
    first: Option<Home>,
    second: Option<Home>,
) -> Option<Home>
    ensures { option_map home_of result ≡ target_at program.now (instance_of instance) (option_map home_of first) (option_map home_of second) }
{
    match (instance, first, second) {
        (Instance::Init(i), _, _) => start_of(program, i),
        (Instance::Own(_, e), Some(home), _) => own_target(program, home, e),
        (Instance::Guar(_, e), Some(home), _) => guar_target(program, home, e),
        (Instance::Env(..), Some(home), Some(told)) => env_target(home, told),
        (Instance::Inter(_, _, e), Some(home), Some(other)) => {
            inter_target(program, home, other, e)
        }
        _ => None,
    }
}
