ghost use Rattle.std.specs.Prelude.{◌≡◌, ◌<◌, ◌≤◌, MatchOption, length, map, nat_lt, true, false};
ghost use Rattle.std.specs.List.Sorted.{IsPartitionPoint};
ghost use Rattle.thr_base.specs.Held.{Rise};
ghost use Rattle.instance_cursors.specs.Layout as specs;
ghost use Rattle.instance_cursors.specs.Turns.{AllArePassed, HoldsNoneAfter, IsHead, IsNextAfter, has_turn as has_turn_of};

use crate::early::{Early, is_early};
use crate::layout::{HomeKind, HomeOf, Layout};
use fact_table::LiveFact;
use thr_base::{FactId, HomeNo, RuleName};

/// What a cursor goes over: own steps by an edge of the layout, counted from 0, from each fact at its source; these steps as they are
/// told to the other threads; what steps of other threads leave of a live fact, which stands at a home.
#[derive(Clone, Copy, Debug, PartialEq, Eq)]
pub enum Series {
    Own(u32),
    Told(u32),
    Beside(HomeNo, FactId),
}

/// A live fact and a step from 1, at which a cursor may stand. Turns are in the order of ids, and those of one fact in that of steps.
#[derive(Clone, Copy, Debug, PartialEq, Eq)]
pub struct Turn {
    pub id: FactId,
    pub step: u32,
}

/// The turns up to one are passed, and those behind it are not.
#[derive(Clone, Copy, Debug, PartialEq, Eq)]
pub struct Cursor {
    pub series: Series,
    pub passed: Turn,
}

/// The first turn of a cursor's series that was neither passed nor taken early.
pub fn head(layout: &Layout, early: &[Early], facts: &[LiveFact], cursor: Cursor) -> Option<Turn>
    requires { Rise 0 (map (λ f. f.id.0) facts.now) }
    ensures { MatchOption result (AllArePassed layout.now early.now cursor facts.now) (IsHead layout.now early.now cursor facts.now) }
{
    let first = first_from(facts, cursor.passed.id);
    for place in first..facts.len() {
        let fact = facts[place];
        let after = step_after(cursor.passed, fact.id);
        if let Some(step) = next_step(layout, early, cursor.series, fact, after) {
            return Some(Turn { id: fact.id, step });
        }
    }
    None
}

pub(crate) fn first_from(facts: &[LiveFact], id: FactId) -> usize
    requires { Rise 0 (map (λ f. f.id.0) facts.now) }
    ensures within { result ≤ length facts.now }
    ensures first { IsPartitionPoint (λ f. nat_lt f.id.0 id.0 ≡ true) (λ f. nat_lt f.id.0 id.0 ≡ false) facts.now result }
{
    facts.partition_point(|fact| fact.id.0 < id.0)
}

/// The step of a fact up to which its turns are passed.
fn step_after(passed: Turn, id: FactId) -> u32
    ensures { result ≡ specs.step_after passed id }
{
    if id.0 == passed.id.0 { passed.step } else { 0 }
}

/// The first turn of a fact in a series after a step, by its own step.
pub(crate) fn next_step(
    layout: &Layout,
    early: &[Early],
    series: Series,
    fact: LiveFact,
    after: u32,
) -> Option<u32>
    ensures { MatchOption result (HoldsNoneAfter (has_turn_of layout.now early.now series fact) after) (IsNextAfter (has_turn_of layout.now early.now series fact) after) }
{
    for passed in after..last_step(layout, series) {
        if has_turn(layout, early, series, fact, passed + 1) {
            return Some(passed + 1);
        }
    }
    None
}

fn has_turn(layout: &Layout, early: &[Early], series: Series, fact: LiveFact, step: u32) -> bool
    ensures { result ≡ has_turn_of layout.now early.now series fact step }
{
    has_step(layout, series, fact.fact.home, step)
        && !is_early(early, series, Turn { id: fact.id, step })
}

pub(crate) fn last_step(layout: &Layout, series: Series) -> u32
    ensures { result ≡ specs.last_step layout.now series }
{
    match series {
        Series::Own(_) => 1,
        Series::Told(_) => 1,
        Series::Beside(_, _) => last_beside(layout),
    }
}

fn last_beside(layout: &Layout) -> u32
    ensures { result ≡ specs.last_beside layout.now }
{
    match layout.rule() {
        RuleName::Rg => 1,
        RuleName::Og => layout.edge_count(),
    }
}

pub(crate) fn has_step(layout: &Layout, series: Series, home: HomeNo, step: u32) -> bool
    ensures { result ≡ specs.has_step layout.now series home.0 step }
{
    match series {
        Series::Own(edge) => step == 1 && has_source(layout, edge, home),
        Series::Told(edge) => step == 1 && is_told(layout) && has_source(layout, edge, home),
        Series::Beside(at, _) => are_apart(layout.home(at), layout.home(home))
            && leaves(layout, home, step),
    }
}

fn has_source(layout: &Layout, edge: u32, home: HomeNo) -> bool
    ensures { result ≡ specs.has_source layout.now edge home.0 }
{
    match layout.edge(edge) {
        Some(edge) => edge.source.0 == home.0,
        None => false,
    }
}

fn is_told(layout: &Layout) -> bool
    ensures { result ≡ specs.is_told layout.now.rule }
{
    match layout.rule() {
        RuleName::Rg => true,
        RuleName::Og => false,
    }
}

fn is_state(kind: HomeKind) -> bool
    ensures { result ≡ specs.is_state kind }
{
    match kind {
        HomeKind::State => true,
        HomeKind::Step => false,
    }
}

/// Whether the one is a home of states, and the other a home of another thread.
fn are_apart(own: Option<HomeOf>, other: Option<HomeOf>) -> bool
    ensures { result ≡ specs.are_apart own other }
{
    match own {
        None => false,
        Some(own) => match other {
            None => false,
            Some(other) => is_state(own.kind) && own.thread.0 != other.thread.0,
        },
    }
}

fn is_step_home(home: Option<HomeOf>) -> bool
    ensures { result ≡ specs.is_step_home home }
{
    match home {
        None => false,
        Some(home) => !is_state(home.kind),
    }
}

fn leaves(layout: &Layout, home: HomeNo, step: u32) -> bool
    ensures { result ≡ specs.leaves layout.now.rule layout.now home.0 step }
{
    match layout.rule() {
        RuleName::Rg => is_step_home(layout.home(home)) && step == 1,
        RuleName::Og => leaves_by_edge(layout, home, step),
    }
}

fn leaves_by_edge(layout: &Layout, home: HomeNo, step: u32) -> bool
    ensures { result ≡ specs.leaves_by_edge layout.now home.0 step }
{
    if step == 0 {
        false
    } else {
        has_source(layout, step - 1, home)
    }
}
