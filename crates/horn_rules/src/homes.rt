ghost use Rattle.std.specs.Prelude.{◌≡◌, ◌↔◌, IsTrue, ◌+◌, ◌*◌, ◌^◌, ◌≤◌, ◌<◌, Some, length, take, slice_get, IsSome};
ghost use Rattle.transition_formula.specs.Program.{Thread, IsProgram, IsThreadOf, at_number};
ghost use Rattle.horn_rules.specs.Home.{State, Env, by_number, homes, IsHomeOf};
ghost use Rattle.horn_rules.specs.Stored.{home_of};
ghost use Rattle.horn_rules.specs.inside.Kinds.{home_in, homes_in, HasPlace};

use thr_base::{EdgeNo, Home, HomeNo, Loc, ThreadNo};
use transition_formula::Program;

/// What a home of a thread is at.
#[derive(Clone, Copy)]
enum Kind {
    Location,
    Edge,
}

/// How many homes of a kind a thread has.
fn count_in(program: &Program, kind: Kind, thread: ThreadNo) -> u32
    requires program { IsProgram program.now }
    requires there { IsSome (at_number program.now.threads thread.0) }
    ensures count { (found : Thread) → IsThreadOf program.now thread.0 found → result ≡ length (homes_in kind thread.0 found) }
    ensures few { result ≤ 2 ^ 16 }
{
    match kind {
        Kind::Location => program.locations(thread),
        Kind::Edge => program.edges(thread).len() as u32,
    }
}

/// How many homes of a kind the first threads have.
fn count_before(program: &Program, kind: Kind, threads: u32) -> u32
    requires program { IsProgram program.now }
    requires there { threads ≤ length program.now.threads }
    ensures count { result ≡ length (by_number (homes_in kind) 1 (take threads program.now.threads)) }
    ensures few { result ≤ threads * 2 ^ 16 }
{
    let mut count = 0;
    for i in 0..threads {
        count += count_in(program, kind, ThreadNo(i + 1));
    }
    count
}

/// The place, from 0, of a thread's home among all of its kind.
fn place_of(program: &Program, kind: Kind, thread: ThreadNo, place: u32) -> u32
    requires program { IsProgram program.now }
    requires there { HasPlace program.now kind thread.0 place }
    ensures place { slice_get (by_number (homes_in kind) 1 program.now.threads) result ≡ Some (home_in kind thread.0 place) }
    ensures few { result < 2 ^ 20 }
{
    count_before(program, kind, thread.0 - 1) + place
}

/// The home at a place, from 0, among all of its kind.
fn home_at(program: &Program, kind: Kind, place: u32) -> Home
    requires { IsSome (slice_get (by_number (homes_in kind) 1 program.now.threads) place) }
    ensures { slice_get (by_number (homes_in kind) 1 program.now.threads) place ≡ Some (home_of result) }
{
    let mut left = place;
    for i in 0..program.threads() {
        let thread = ThreadNo(i + 1);
        let here = count_in(program, kind, thread);
        if left < here {
            return home(kind, thread, left);
        }
        left -= here;
    }
    unreachable!()
}

/// The home of a thread at a place, from 0.
fn home(kind: Kind, thread: ThreadNo, place: u32) -> Home
    requires { place < 2 ^ 16 }
    ensures { home_of result ≡ home_in kind thread.0 place }
{
    match kind {
        Kind::Location => Home::State(thread, Loc(place)),
        Kind::Edge => Home::Env(thread, EdgeNo(place + 1)),
    }
}

/// How many homes a program has.
pub fn home_count(program: &Program) -> u32
    ensures { result ≡ length (homes program.now) }
{
    let threads = program.threads();
    count_before(program, Kind::Location, threads) + count_before(program, Kind::Edge, threads)
}

pub(crate) fn has_thread(program: &Program, thread: ThreadNo) -> bool
    ensures { IsTrue result ↔ IsSome (at_number program.now.threads thread.0) }
{
    1 <= thread.0 && thread.0 <= program.threads()
}

fn has_location(program: &Program, thread: ThreadNo, location: Loc) -> bool
    ensures { IsTrue result ↔ IsHomeOf program.now (State thread.0 location.0) }
{
    has_thread(program, thread) && location.0 < program.locations(thread)
}

pub(crate) fn has_edge(program: &Program, thread: ThreadNo, edge: EdgeNo) -> bool
    ensures { IsTrue result ↔ IsHomeOf program.now (Env thread.0 edge.0) }
{
    if !has_thread(program, thread) {
        return false;
    }
    if edge.0 == 0 {
        return false;
    }
    edge.0 as usize <= program.edges(thread).len()
}

/// Whether the program has the home.
pub fn has_home(program: &Program, home: Home) -> bool
    ensures { IsTrue result ↔ IsHomeOf program.now (home_of home) }
{
    match home {
        Home::State(thread, location) => has_location(program, thread, location),
        Home::Env(thread, edge) => has_edge(program, thread, edge),
    }
}

/// The number of a home, from 1: the homes at locations by thread and location, then those at edges by thread and edge.
pub fn number(program: &Program, home: Home) -> HomeNo
    requires { IsHomeOf program.now (home_of home) }
    ensures { at_number (homes program.now) result.0 ≡ Some (home_of home) }
{
    let threads = program.threads();
    match home {
        Home::State(thread, location) => {
            HomeNo(place_of(program, Kind::Location, thread, location.0) + 1)
        }
        Home::Env(thread, edge) => {
            let states = count_before(program, Kind::Location, threads);
            HomeNo(states + place_of(program, Kind::Edge, thread, edge.0 - 1) + 1)
        }
    }
}

/// The home of a number.
pub fn named(program: &Program, n: HomeNo) -> Home
    requires { IsSome (at_number (homes program.now) n.0) }
    ensures { at_number (homes program.now) n.0 ≡ Some (home_of result) }
{
    let states = count_before(program, Kind::Location, program.threads());
    let place = n.0 - 1;
    if place < states {
        home_at(program, Kind::Location, place)
    } else {
        home_at(program, Kind::Edge, place - states)
    }
}
