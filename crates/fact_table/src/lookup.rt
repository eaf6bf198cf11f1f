ghost use Rattle.std.specs.Prelude.{◌≡◌, ◌≢◌, ◌≤◌, Some, nat_lt, true, false, length, map, slice_get, MatchOption};
ghost use Rattle.std.specs.List.{AllByRecursion};
ghost use Rattle.std.specs.List.Sorted.{IsPartitionPoint};
ghost use Rattle.std.specs.Option.{option_copied};
ghost use Rattle.thr_base.specs.Held.{Rise};
ghost use Rattle.fact_table.specs.Live as specs;

use crate::live_fact::{LiveFact, Rank};
use thr_base::{FactId, Instance};

/// The place of an id in a list that rises.
pub(crate) fn place_of(ids: &[FactId], id: FactId) -> Option<usize>
    requires { Rise 0 (map (λ each. each.0) ids.now) }
    ensures { MatchOption result (AllByRecursion (λ each. each ≢ id) ids.now) (λ place. slice_get ids.now place ≡ Some id) }
{
    let place = first_from(ids, id);
    if place == ids.len() {
        return None;
    }
    if ids[place].0 == id.0 {
        Some(place)
    } else {
        None
    }
}

/// The first place of a list that rises at which an id is not below this one.
fn first_from(ids: &[FactId], id: FactId) -> usize
    requires { Rise 0 (map (λ each. each.0) ids.now) }
    ensures within { result ≤ length ids.now }
    ensures first { IsPartitionPoint (λ each. nat_lt each.0 id.0 ≡ true) (λ each. nat_lt each.0 id.0 ≡ false) ids.now result }
{
    ids.partition_point(|each| each.0 < id.0)
}

/// The live fact with an id, of facts by rising id, beside which their ids stand.
pub(crate) fn fact_with<'a>(
    facts: &'a [LiveFact],
    ids: &[FactId],
    id: FactId,
) -> Option<&'a LiveFact>
    requires ids { ids.now ≡ map (λ f. f.id) facts.now }
    requires rise { Rise 0 (map (λ f. f.id.0) facts.now) }
    ensures { option_copied result ≡ specs.live_at facts.now id.0 }
{
    match place_of(ids, id) {
        Some(place) => Some(&facts[place]),
        None => None,
    }
}

pub(crate) fn rank_at(facts: &[LiveFact], ids: &[FactId], id: FactId) -> Rank
    requires ids { ids.now ≡ map (λ f. f.id) facts.now }
    requires rise { Rise 0 (map (λ f. f.id.0) facts.now) }
    ensures { result ≡ specs.rank_at facts.now id }
{
    match fact_with(facts, ids, id) {
        Some(fact) => fact.rank,
        None => Rank { size: 0, chain: 0 },
    }
}

fn rank_after(first: Rank) -> Rank
    ensures { result ≡ specs.rank_after first }
{
    Rank {
        size: first.size.saturating_add(1),
        chain: first.chain.saturating_add(1),
    }
}

fn rank_after_both(first: Rank, second: Rank) -> Rank
    ensures { result ≡ specs.rank_after_both first second }
{
    Rank {
        size: first.size.saturating_add(second.size).saturating_add(1),
        chain: first.chain.saturating_add(1),
    }
}

/// The rank of what an instance gives.
pub(crate) fn rank_of(facts: &[LiveFact], ids: &[FactId], kept: Instance) -> Rank
    requires ids { ids.now ≡ map (λ f. f.id) facts.now }
    requires rise { Rise 0 (map (λ f. f.id.0) facts.now) }
    ensures { result ≡ specs.rank_of facts.now kept }
{
    match kept {
        Instance::Init(_) => Rank { size: 1, chain: 0 },
        Instance::Own(f, _) => rank_after(rank_at(facts, ids, f)),
        Instance::Guar(f, _) => rank_told(rank_at(facts, ids, f)),
        Instance::Env(f, t) => rank_after_both(rank_at(facts, ids, f), rank_at(facts, ids, t)),
        Instance::Inter(f, g, _) => rank_after_both(rank_at(facts, ids, f), rank_at(facts, ids, g)),
    }
}

/// A step as the other threads see it is no further step.
fn rank_told(first: Rank) -> Rank
    ensures { result ≡ specs.rank_told first }
{
    Rank {
        size: first.size.saturating_add(1),
        chain: first.chain,
    }
}
