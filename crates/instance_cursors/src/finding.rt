ghost use Rattle.std.specs.Prelude.{◌≡◌, ◌↔◌, ◌<◌, ◌++◌, ◌∷◌, [], IsTrue, false, length, map, slice_index_or, IfErr, IfOk, MatchOption};
ghost use Rattle.std.specs.List.{Contains};
ghost use Rattle.thr_base.specs.Held.{Rise};
ghost use Rattle.instance_cursors.specs.Turns.{IsPassed, is_early as is_early_of};
ghost use Rattle.instance_cursors.specs.declared.turns.Cursor.{Cursor as CursorOf};
ghost use Rattle.instance_cursors.specs.inside.Chosen.{IsHomeAhead, early_at};
ghost use Rattle.instance_cursors.specs.inside.Found as inside;

use crate::early::{Early, is_early};
use crate::instances::{instance_of, target_of};
use crate::layout::Layout;
use crate::turns::{Cursor, Series, Turn, has_step, last_step};
use fact_table::LiveFact;
use std::alloc::AllocError;
use thr_base::{FactId, HomeNo, Instance};

/// A cursor's place, and a turn of its series.
#[derive(Clone, Copy)]
pub(crate) struct Place {
    pub(crate) place: usize,
    pub(crate) turn: Turn,
}

/// The cursor that has an instance in its series, and the turn that it is.
pub(crate) fn find(
    layout: &Layout,
    facts: &[LiveFact],
    cursors: &[Cursor],
    instance: Instance,
) -> Option<Place>
    requires { Rise 0 (map (λ f. f.id.0) facts.now) }
    ensures { MatchOption result (inside.IsNowhere layout.now facts.now cursors.now instance) (inside.IsAt layout.now facts.now cursors.now instance) }
{
    match fact_at(facts, last_id(instance)) {
        Some(fact) => find_of(layout, facts, cursors, instance, fact),
        None => None,
    }
}

/// The same where the live fact is known that the cursor goes over.
fn find_of(
    layout: &Layout,
    facts: &[LiveFact],
    cursors: &[Cursor],
    instance: Instance,
    fact: LiveFact,
) -> Option<Place>
    requires ids { Rise 0 (map (λ f. f.id.0) facts.now) }
    requires is_live { Contains facts.now fact }
    requires id { fact.id ≡ inside.last_id instance }
    ensures { MatchOption result (inside.IsNowhere layout.now facts.now cursors.now instance) (inside.IsAt layout.now facts.now cursors.now instance) }
{
    for place in 0..cursors.len() {
        if let Some(step) = step_of(layout, cursors[place].series, fact, instance) {
            return Some(Place {
                place,
                turn: Turn { id: fact.id, step },
            });
        }
    }
    None
}

/// The live fact with an id.
fn fact_at(facts: &[LiveFact], id: FactId) -> Option<LiveFact>
    ensures { MatchOption result (inside.HasNoId facts.now id) (λ f. Contains facts.now f × (f.id ≡ id)) }
{
    for place in 0..facts.len() {
        let fact = facts[place];
        if fact.id.0 == id.0 {
            return Some(fact);
        }
    }
    None
}

/// The last premise of an instance: cursors go over it.
fn last_id(instance: Instance) -> FactId
    ensures { result ≡ inside.last_id instance }
{
    match instance {
        Instance::Init(_) => FactId(0),
        Instance::Own(id, _) => id,
        Instance::Guar(id, _) => id,
        Instance::Env(_, id) => id,
        Instance::Inter(_, id, _) => id,
    }
}

/// The step of a fact that is the instance in a series.
fn step_of(layout: &Layout, series: Series, fact: LiveFact, instance: Instance) -> Option<u32>
    ensures { MatchOption result (inside.HasNoStep layout.now series fact instance) (inside.IsStep layout.now series fact instance) }
{
    for passed in 0..last_step(layout, series) {
        if is_step(layout, series, fact, instance, passed + 1) {
            return Some(passed + 1);
        }
    }
    None
}

fn is_step(layout: &Layout, series: Series, fact: LiveFact, instance: Instance, step: u32) -> bool
    ensures { IsTrue result ↔ inside.IsStep layout.now series fact instance step }
{
    has_step(layout, series, fact.fact.home, step)
        && instance_of(layout, series, Turn { id: fact.id, step }) == instance
}

/// Whether a turn at a cursor was neither passed nor taken early.
fn is_ahead(cursor: Cursor, early: &[Early], turn: Turn) -> bool
    ensures { IsTrue result ↔ ((IsPassed cursor.passed turn.id.0 turn.step → ⊥) × (is_early_of early.now cursor.series turn ≡ false)) }
{
    !is_passed(cursor.passed, turn) && !is_early(early, cursor.series, turn)
}

fn is_passed(passed: Turn, turn: Turn) -> bool
    ensures { IsTrue result ↔ IsPassed passed turn.id.0 turn.step }
{
    turn.id.0 < passed.id.0 || turn.id.0 == passed.id.0 && turn.step <= passed.step
}

/// The turn at a cursor is taken early.
pub(crate) fn take_early(
    early: &mut Vec<Early>,
    cursors: &[Cursor],
    at: Place,
) -> Result<(), AllocError>
    requires { at.place < length cursors.now }
    ensures taken { IfOk result (λ _. (c : CursorOf) → early.new.items ≡ early.old.items ++ early_at (slice_index_or cursors.now at.place c) at.turn ∷ []) }
    ensures err { IfErr result (λ _. early.new.items ≡ early.old.items) }
{
    let series = cursors[at.place].series;
    early.push(Early {
        series,
        turn: at.turn,
    })?;
    Ok(())
}

/// The home to which a turn at a cursor leads, if it was neither passed nor taken early.
pub(crate) fn home_ahead(
    layout: &Layout,
    early: &[Early],
    cursors: &[Cursor],
    at: Place,
) -> Option<HomeNo>
    requires { at.place < length cursors.now }
    ensures { (d : CursorOf) → IsHomeAhead layout.now early.now (slice_index_or cursors.now at.place d) at.turn result }
{
    let cursor = cursors[at.place];
    if is_ahead(cursor, early, at.turn) {
        Some(target_of(layout, cursor.series))
    } else {
        None
    }
}
