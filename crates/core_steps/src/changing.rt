ghost use Rattle.std.specs.Prelude.{◌≡◌, ◌<◌, ◌≤◌, ◌+◌, ◌-◌, ◌^◌, ◌++◌, ◌∷◌, [], length, slice_index, slice_set, if◌then◌else◌, not, is_some, EachIndex, IfOk, OnErr};
ghost use Rattle.fact_table.specs.Live.{live_at};
ghost use Rattle.std.specs.List.{AllByRecursion};
ghost use Rattle.std.specs.Vec.{vec_capacity};
ghost use Rattle.derivation_tree.specs.Kept.{predicates_of_stored};
ghost use Rattle.pending_instances.specs.Pending.{is_among};
ghost use Rattle.core_steps.specs.Allowed.{Allows};
ghost use Rattle.core_steps.specs.Course.{opening_of, state_of, with_events};
ghost use Rattle.core_steps.specs.Event.{Refine as Refines};
ghost use Rattle.core_steps.specs.inside.Changing.{AreListsWith, HasItsNumber, gone_with, homes_of, lost_homes, raised};

use crate::event::Event;
use crate::opening::lists_of;
use crate::recording::{add_event, put_at};
use crate::stored_core::Core;
use derivation_tree::Scope;
use fact_table::{LiveFact, Table};
use horn_rules::home_count;
use lin_rows::Atom;
use predicate_sets::Sets;
use std::alloc::{AllocError, Global};
use thr_base::{FactId, HomeNo};
use withdraw::withdraw;

impl<'p> Core<'p> {
    /// Homes get new predicates, by lists that have them, and what rests on these homes is withdrawn. It says how many facts went.
    pub(crate) fn add_new(
        &mut self,
        w: u32,
        scope: Scope,
        sets: Sets,
        new: Vec<(HomeNo, Atom)>,
    ) -> Result<u32, AllocError>
        requires allowed { Allows (opening_of self.old) (state_of self.old) (Refines w scope (predicates_of_stored self.old.program new.items)) }
        requires lists { AreListsWith self.old.program (state_of self.old) (predicates_of_stored self.old.program new.items) sets }
        requires homes { AllByRecursion (HasItsNumber self.old.program) new.items }
        ensures course { IfOk result (λ _. self.new ≡ with_events self.old (Refines w scope (predicates_of_stored self.old.program new.items) ∷ [])) }
        ensures gone { IfOk result (λ gone. gone ≡ gone_with (state_of self.old) (predicates_of_stored self.old.program new.items)) }
        ensures err { OnErr result (self.new ≡ self.old) }
    {
        let alloc = *self.journal.allocator();
        let lists = lists_of(alloc, &sets, home_count(self.program))?;
        let before = facts_of(alloc, self.table.facts())?;
        let homes = homes_of(alloc, &new)?;
        let mut renewed = room_for(alloc, &homes, &before)?;
        // nothing fails from here on
        let gone = withdraw(&mut self.table, &homes);
        let _left = self.table.facts(); // its contract says that it is a table
        add_lost(&mut renewed, &before, &self.table);
        self.waiting.changed(&self.table, &renewed);
        raise_epochs(&mut self.epochs, &renewed);
        self.sets = sets;
        self.lists = lists;
        self.refined += 1;
        put_at(&mut self.claims, w as usize - 1, None);
        add_event(&mut self.journal, Event::Refine(w, scope, new));
        Ok(gone)
    }
}

fn facts_of(alloc: Global, facts: &[LiveFact]) -> Result<Vec<LiveFact>, AllocError>
    ensures { IfOk result (λ copies. copies.items ≡ facts.now) }
{
    let mut copies = Vec::new(alloc);
    for fact in facts {
        copies.push(*fact)?;
    }
    Ok(copies)
}

/// The homes of predicates.
fn homes_of(alloc: Global, new: &[(HomeNo, Atom)]) -> Result<Vec<HomeNo>, AllocError>
    ensures { IfOk result (λ homes. homes.items ≡ homes_of new.now) }
{
    let mut homes = Vec::new(alloc);
    for pair in new {
        homes.push(pair.0)?;
    }
    Ok(homes)
}

/// The same homes, with room for that of each fact.
fn room_for(alloc: Global, homes: &[HomeNo], facts: &[LiveFact]) -> Result<Vec<HomeNo>, AllocError>
    ensures items { IfOk result (λ renewed. renewed.items ≡ homes.now) }
    ensures room { IfOk result (λ renewed. length homes.now + length facts.now ≤ vec_capacity renewed) }
{
    let mut renewed = Vec::new(alloc);
    for home in homes {
        renewed.push(*home)?;
    }
    renewed.reserve(facts.len())?;
    Ok(renewed)
}

/// Puts the home of each fact that is live no more behind those that are there.
fn add_lost(renewed: &mut Vec<HomeNo>, before: &[LiveFact], table: &Table)
    requires { length renewed.old.items + length before.now ≤ vec_capacity renewed.old }
    ensures { renewed.new.items ≡ renewed.old.items ++ lost_homes table.now.live before.now }
{
    for fact in before {
        if is_gone(table, fact.id) {
            push_within(renewed, fact.fact.home);
        }
    }
}

/// Whether the fact is live no more.
fn is_gone(table: &Table, id: FactId) -> bool
    ensures { result ≡ not (is_some (live_at table.now.live id.0)) }
{
    table.kept(id).is_none()
}

/// Puts a home at the end, where there is room.
fn push_within(renewed: &mut Vec<HomeNo>, home: HomeNo)
    requires { length renewed.old.items < vec_capacity renewed.old }
    ensures items { renewed.new.items ≡ renewed.old.items ++ home ∷ [] }
    ensures capacity { vec_capacity renewed.old ≤ vec_capacity renewed.new }
{
    if renewed.push(home).is_err() {
        unreachable!()
    }
}

/// Each home among these begins its next epoch.
fn raise_epochs(epochs: &mut Vec<u32>, renewed: &[HomeNo])
    requires few { length epochs.old.items < 2 ^ 32 }
    requires low { EachIndex epochs.old.items (λ k. slice_index epochs.old.items k + 1 < 2 ^ 32) }
    ensures { epochs.new.items ≡ raised renewed.now 1 epochs.old.items }
{
    for place in 0..epochs.len() {
        raise_at(epochs, renewed, place);
    }
}

fn raise_at(epochs: &mut Vec<u32>, renewed: &[HomeNo], place: usize)
    requires there { place < length epochs.old.items }
    requires few { length epochs.old.items < 2 ^ 32 }
    requires low { slice_index epochs.old.items place + 1 < 2 ^ 32 }
    ensures { epochs.new.items ≡ slice_set epochs.old.items place (if is_among renewed.now (record { 0 = place + 1 }) then slice_index epochs.old.items place + 1 else slice_index epochs.old.items place) }
{
    if has_home(renewed, HomeNo(place as u32 + 1)) {
        epochs[place] += 1;
    }
}

fn has_home(homes: &[HomeNo], home: HomeNo) -> bool
    ensures { result ≡ is_among homes.now home }
{
    homes.iter().any(|other| other.0 == home.0)
}
