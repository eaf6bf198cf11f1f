ghost use Rattle.std.specs.Prelude.{◌≡◌, ℕ, ◌+◌, ◌-◌, ◌<◌, ◌≤◌, ◌^◌, [], replicate, length, map, take, drop, slice_index_or, slice_index, EachIndex, IfOk};
ghost use Rattle.std.specs.List.{insert};
ghost use Rattle.std.specs.Vec.{vec_capacity};
ghost use Rattle.fact_table.specs.inside.HomeIds.{AreEnds, parts, raised_ends, start_of, with_id};

use std::alloc::{AllocError, Global};
use std::marker::Model;
use thr_base::{FactId, HomeNo};

/// The ids of the live facts of each home, in rising order. All stand in one buffer, so that room for so many serves all homes.
#[derive(Drop)]
pub(crate) struct HomeIds {
    room: u32,
    ids: Vec<FactId>,
    ends: Vec<u32>,
}

impl Model for HomeIds {
    ghost use Rattle.std.specs.Prelude.{◌≤◌, ◌<◌, ◌^◌, length};
    ghost use Rattle.std.specs.Vec.{vec_capacity};
    ghost use Rattle.fact_table.specs.inside.HomeIds.{HomeIds as Seen, parts, AreEnds};

    ghost Value = { Seen };

    ghost view = { λ inside. record {
      room = inside.room;
      count = length inside.ids.items;
      lists = parts inside.ids.items 0 inside.ends.items;
    } };

    ghost invariant = { λ inside.
        (inside.room ≤ vec_capacity inside.ids) × (inside.room < 2 ^ 32) × (length inside.ids.items ≤ inside.room)
        × AreEnds (length inside.ids.items) 0 inside.ends.items };
}

impl HomeIds {
    pub(crate) fn new(alloc: Global, homes: u32, room: u32) -> Result<HomeIds, AllocError>
        ensures { IfOk result (λ made. made ≡ record { room = room; count = 0; lists = replicate homes [] }) }
    {
        let ids = Vec::with_capacity(alloc, room as usize)?;
        let ends = vec![in alloc; 0; homes as usize]?;
        Ok(HomeIds { room, ids, ends })
    }

    /// The ids at a home.
    pub(crate) fn at(&self, home: HomeNo) -> &[FactId]
        requires { (0 < home.0) × (home.0 ≤ length self.now.lists) }
        ensures { result.now ≡ slice_index_or self.now.lists (home.0 - 1) [] }
    {
        part_at(&self.ids, &self.ends, home.0 as usize - 1)
    }

    /// Puts an id behind those at a home. It takes no memory.
    pub(crate) fn push(&mut self, home: HomeNo, id: FactId)
        requires there { (0 < home.0) × (home.0 ≤ length self.old.lists) }
        requires room { self.old.count < self.old.room }
        ensures { self.new ≡ record self.old { count = self.old.count + 1; lists = with_id self.old.lists (home.0 - 1) id } }
    {
        let place = home.0 as usize - 1;
        let end = end_at(&self.ends, place);
        insert_within(&mut self.ids, end as usize, id);
        raise(&mut self.ends, place);
    }

    /// Takes all ids out. The room stays.
    pub(crate) fn clear(&mut self)
        ensures { self.new ≡ record self.old { count = 0; lists = replicate (length self.old.lists) [] } }
    {
        self.ids.clear();
        set_to_zero(&mut self.ends);
    }
}

/// The part of the ids at a place.
#[tactic(auto, using(crate::proofs::Parts::part_is, crate::proofs::Parts::start_within))]
fn part_at<'a>(ids: &'a [FactId], ends: &[u32], place: usize) -> &'a [FactId]
    requires ends { AreEnds (length ids.now) 0 ends.now }
    requires place { place < length ends.now }
    ensures { result.now ≡ slice_index_or (parts ids.now 0 ends.now) place [] }
{
    let from = start_at(ends, place) as usize;
    let end = end_at(ends, place) as usize;
    &ids[from..end]
}

fn end_at(ends: &[u32], place: usize) -> u32
    requires { place < length ends.now }
    ensures { result ≡ slice_index ends.now place }
{
    ends[place]
}

/// Puts an id in where there is room.
fn insert_within(ids: &mut Vec<FactId>, place: usize, id: FactId)
    requires place { place ≤ length ids.old.items }
    requires room { length ids.old.items < vec_capacity ids.old }
    ensures items { ids.new.items ≡ insert ids.old.items place id }
    ensures capacity { vec_capacity ids.old ≤ vec_capacity ids.new }
{
    if ids.insert(place, id).is_err() {
        unreachable!()
    }
}

fn start_at(ends: &[u32], place: usize) -> u32
    requires { place < length ends.now }
    ensures { result ≡ start_of 0 ends.now place }
{
    if place == 0 { 0 } else { ends[place - 1] }
}

/// Adds 1 to each number from a place on.
fn raise(ends: &mut Vec<u32>, from: usize)
    requires place { from ≤ length ends.old.items }
    requires room { EachIndex ends.old.items (λ k. slice_index ends.old.items k + 1 < 2 ^ 32) }
    ensures { ends.new.items ≡ raised_ends from ends.old.items }
{
    raise_all(&mut ends[from..]);
}

fn raise_all(ends: &mut [u32])
    requires { EachIndex ends.old (λ k. slice_index ends.old k + 1 < 2 ^ 32) }
    ensures { ends.new ≡ map (λ end. end + 1) ends.old }
{
    for end in ends.iter_mut() {
        *end += 1;
    }
}

fn set_to_zero(ends: &mut Vec<u32>)
    ensures { ends.new.items ≡ replicate (length ends.old.items) 0 }
{
    ends.fill(0);
}
