ghost use Rattle.std.specs.Prelude.{◌≡◌, ◌+◌, ◌-◌, ◌^◌, ◌<◌, ◌≤◌, length, map, option_map, IfOk};
ghost use Rattle.std.specs.Vec.{vec_capacity};
ghost use Rattle.fact_table.specs.Live.{ArePremisesLive, IsLive, NoneIsMarked, ids_at, is_marked, live_at, rank_at as rank_in, unmarked_facts, with_mark};
ghost use Rattle.fact_table.specs.Table.{HasHome, IsInsertAnswer, IsTable, NamesLive, no_facts};
ghost use Rattle.fact_table.specs.inside.Stored.{marked_at};

use crate::index::{Index, fill, push_within};
use crate::live_fact::{LiveFact, Rank};
use crate::lookup::{fact_with, place_of, rank_at, rank_of};
use std::alloc::{AllocError, Global};
use std::marker::Model;
use thr_base::{Fact, FactId, HomeNo, Instance};

/// The live facts, with room for as many as may be live. After it was made it takes no memory.
#[derive(Drop)]
pub struct Table {
    homes: u32,
    limit: u32,
    given: u32,
    facts: Vec<LiveFact>,
    index: Index,
}

impl Model for Table {
    ghost use Rattle.fact_table.specs.Table.{FactTable};

    ghost Value = { FactTable };

    ghost use Rattle.fact_table.specs.inside.Stored.{IsStored};

    ghost view = { λ inside. record {
      homes = inside.homes;
      limit = inside.limit;
      given = inside.given;
      live = inside.facts.items;
    } };

    ghost invariant = { IsStored };
}

/// How a fact came in.
#[derive(Clone, Copy, Debug, PartialEq, Eq)]
pub enum Inserted {
    New(FactId),
    Same(FactId),
    Full,
}

impl Table {
    pub fn new(alloc: Global, homes: u32, limit: u32) -> Result<Table, AllocError>
        ensures { IfOk result (λ table. table ≡ no_facts homes limit) }
    {
        let facts = Vec::with_capacity(alloc, limit as usize)?;
        let index = Index::new(alloc, homes, limit)?;
        Ok(Table {
            homes,
            limit,
            given: 0,
            facts,
            index,
        })
    }

    /// Makes a fact live, with the instance that it came from, unless it is live already or as many are as may be.
    pub fn insert(&mut self, fact: Fact, kept: Instance) -> Inserted
        requires home { HasHome self.old.homes fact.home.0 }
        requires premises { ArePremisesLive self.old.live kept }
        requires ids { self.old.given < 2 ^ 32 - 1 }
        requires unmarked { NoneIsMarked self.old.live }
        ensures answer { IsInsertAnswer self.old fact kept result self.new }
        ensures live { NamesLive result self.new.live }
        ensures unmarked { NoneIsMarked self.new.live }
        ensures homes { self.new.homes ≡ self.old.homes }
        ensures given { self.new.given ≤ self.old.given + 1 }
    {
        if let Some(id) = self.index.by_fact.get(fact) {
            return Inserted::Same(id);
        }
        if self.facts.len() >= self.limit as usize {
            return Inserted::Full;
        }
        let id = FactId(self.given + 1);
        let rank = rank_of(&self.facts, &self.index.ids, kept);
        let live = LiveFact {
            id,
            fact,
            kept,
            rank,
            marked: false,
        };
        push_within(&mut self.facts, live);
        self.index.add(id, fact);
        self.given += 1;
        Inserted::New(id)
    }

    /// What is known of a live fact: itself, and the instance that it came from first.
    pub fn kept(&self, id: FactId) -> Option<(Fact, Instance)>
        ensures { result ≡ option_map (λ f. (f.fact, f.kept)) (live_at self.now.live id.0) }
    {
        let fact = fact_with(&self.facts, &self.index.ids, id)?;
        Some((fact.fact, fact.kept))
    }

    /// The ids of the live facts, in rising order.
    pub fn live(&self) -> &[FactId]
        ensures { result.now ≡ map (λ f. f.id) self.now.live }
    {
        self.index.ids.as_slice()
    }

    /// The live facts, by rising id.
    pub fn facts(&self) -> &[LiveFact]
        ensures facts { result.now ≡ self.now.live }
        ensures table { IsTable self.now }
    {
        self.facts.as_slice()
    }

    /// The ids of the live facts at a home, in rising order.
    pub fn at(&self, home: HomeNo) -> &[FactId]
        requires { HasHome self.now.homes home.0 }
        ensures { result.now ≡ ids_at home.0 self.now.live }
    {
        self.index.by_home.at(home)
    }

    /// Marks a live fact, to be swept out.
    pub fn mark(&mut self, id: FactId)
        requires { IsLive self.old.live id }
        ensures { self.new ≡ record self.old { live = map (with_mark id.0) self.old.live } }
    {
        let Some(place) = place_of(&self.index.ids, id) else {
            unreachable!()
        };
        mark_at(&mut self.facts, place);
    }

    /// Whether the fact is live and marked.
    pub fn marked(&self, id: FactId) -> bool
        ensures { result ≡ is_marked self.now.live id }
    {
        match fact_with(&self.facts, &self.index.ids, id) {
            Some(fact) => fact.marked,
            None => false,
        }
    }

    /// The rank of a live fact.
    pub fn rank(&self, id: FactId) -> Rank
        ensures { result ≡ rank_in self.now.live id }
    {
        rank_at(&self.facts, &self.index.ids, id)
    }

    /// Takes out the facts that are marked, and says how many.
    pub fn sweep(&mut self) -> u32
        ensures live { self.new ≡ record self.old { live = unmarked_facts self.old.live } }
        ensures count { result + length self.new.live ≡ length self.old.live }
        ensures unmarked { NoneIsMarked self.new.live }
    {
        let before = self.facts.len();
        keep_unmarked(&mut self.facts);
        fill(&mut self.index, &self.facts);
        (before - self.facts.len()) as u32
    }
}

fn mark_at(facts: &mut Vec<LiveFact>, place: usize)
    requires { place < length facts.old.items }
    ensures facts { facts.new.items ≡ marked_at facts.old.items place }
    ensures capacity { vec_capacity facts.new ≡ vec_capacity facts.old }
{
    let fact = facts[place];
    facts[place] = LiveFact {
        marked: true,
        ..fact
    };
}

fn keep_unmarked(facts: &mut Vec<LiveFact>)
    ensures facts { facts.new.items ≡ unmarked_facts facts.old.items }
    ensures capacity { vec_capacity facts.new ≡ vec_capacity facts.old }
{
    facts.retain(|fact| !fact.marked);
}
