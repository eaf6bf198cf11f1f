ghost use Rattle.std.specs.Prelude.{◌≡◌, ◌^◌, ◌<◌, length, map, IfOk, IsSome, Some};
ghost use Rattle.transition_formula.specs.Program.{at_number};
ghost use Rattle.horn_rules.specs.Home.{Env as AtEdge, State as AtLocation, IsHomeOf, homes};
ghost use Rattle.horn_rules.specs.Stored.{home_of};
ghost use Rattle.pending_instances.specs.Layout as specs;
ghost use Rattle.pending_instances.specs.inside.Making.{AddsEdge, IsEdgeAt, IsStartOf};

use crate::distance::{distance_from, distances};
use horn_rules::{
    home_count, locations_and_edges_are_homes, named, number,
    stored_values_tell_what_they_stand_for,
};
use instance_cursors::{EdgeHomes, HomeKind, HomeOf, Layout, Start};
use std::alloc::{AllocError, Global};
use thr_base::{EdgeNo, Home, HomeNo, Loc, RuleName, ThreadNo};
use transition_formula::Program;

/// A program as cursors see it: its homes by number, and its edges by thread and number.
pub fn layout_of(alloc: Global, program: &Program, rule: RuleName) -> Result<Layout, AllocError>
    ensures layout { IfOk result (specs.IsLayoutOf program.now) }
    ensures rule { IfOk result (λ layout. layout.rule ≡ rule) }
{
    stored_values_tell_what_they_stand_for();
    let homes = seen_homes(alloc, program)?;
    let edges = seen_edges(alloc, program)?;
    Ok(Layout::new(rule, homes, edges))
}

/// The start of each thread of a program, none of them taken.
pub fn starts_of(alloc: Global, program: &Program) -> Result<Vec<Start>, AllocError>
    ensures seen { IfOk result (λ starts. specs.AreStartsSeen program.now starts.items) }
    ensures untaken { IfOk result (λ starts. specs.NoneIsTaken starts.items) }
{
    let mut starts = Vec::new(alloc);
    for place in 0..program.threads() {
        starts.push(start_of(program, ThreadNo(place + 1)))?;
    }
    Ok(starts)
}

fn start_of(program: &Program, thread: ThreadNo) -> Start
    requires { IsSome (at_number program.now.threads thread.0) }
    ensures { IsStartOf program.now thread.0 result }
{
    locations_and_edges_are_homes();
    let _threads = program.threads(); // its contract says that it is a program
    let home = number(program, Home::State(thread, Loc(1)));
    Start {
        thread,
        home,
        taken: false,
    }
}

/// Each home's thread and kind, by number.
fn seen_homes(alloc: Global, program: &Program) -> Result<Vec<HomeOf>, AllocError>
    ensures { IfOk result (λ made. made.items ≡ map specs.seen_home (homes program.now)) }
{
    let mut made = Vec::new(alloc);
    for place in 0..home_count(program) {
        made.push(seen_home(named(program, HomeNo(place + 1))))?;
    }
    Ok(made)
}

fn seen_home(home: Home) -> HomeOf
    ensures { result ≡ specs.seen_home (home_of home) }
{
    match home {
        Home::State(thread, _) => HomeOf {
            thread,
            kind: HomeKind::State,
        },
        Home::Env(thread, _) => HomeOf {
            thread,
            kind: HomeKind::Step,
        },
    }
}

/// The edges, by the numbers of the homes at which their steps are told.
fn seen_edges(alloc: Global, program: &Program) -> Result<Vec<EdgeHomes>, AllocError>
    ensures edges { IfOk result (λ made. specs.AreEdgesSeen program.now made.items) }
    ensures few { IfOk result (λ made. length made.items < 2 ^ 32) }
{
    locations_and_edges_are_homes();
    let distances = distances(alloc, program)?;
    let mut made = Vec::new(alloc);
    for place in 0..home_count(program) {
        let told = HomeNo(place + 1);
        push_edge(&mut made, program, &distances, told, named(program, told))?;
    }
    Ok(made)
}

/// Puts the edge of a home of steps behind the others.
fn push_edge(
    made: &mut Vec<EdgeHomes>,
    program: &Program,
    distances: &[Vec<u32>],
    told: HomeNo,
    home: Home,
) -> Result<(), AllocError>
    requires { at_number (homes program.now) told.0 ≡ Some (home_of home) }
    ensures { IfOk result (λ _. AddsEdge program.now told.0 (home_of home) made.old.items made.new.items) }
{
    match home {
        Home::State(_, _) => Ok(()),
        Home::Env(thread, edge) => {
            made.push(seen_edge(program, distances, thread, edge, told))?;
            Ok(())
        }
    }
}

/// An edge with the numbers of its homes.
fn seen_edge(
    program: &Program,
    distances: &[Vec<u32>],
    thread: ThreadNo,
    edge: EdgeNo,
    told: HomeNo,
) -> EdgeHomes
    requires { at_number (homes program.now) told.0 ≡ Some (AtEdge thread.0 edge.0) }
    ensures { IsEdgeAt program.now told.0 result }
{
    locations_and_edges_are_homes();
    let _threads = program.threads(); // its contract says that it is a program
    let found = program.edge(thread, edge);
    let from = found.from;
    let to = found.to;
    let source = number(program, Home::State(thread, from));
    let target = number(program, Home::State(thread, to));
    EdgeHomes {
        thread,
        edge,
        source,
        target,
        told,
        to_failing: distance_from(distances, thread, to),
    }
}
