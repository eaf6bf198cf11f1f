ghost use Rattle.std.specs.Prelude.{map};
ghost use Rattle.thr_base.specs.Held.{Rise};

use crate::layout::Layout;
use crate::turns::{Series, Turn, first_from};
use fact_table::{LiveFact, Rank};
use thr_base::FactId;

/// What the order of taking looks at, from the first field on: own steps before steps told, and these before what steps of others leave;
/// then short ways to an assertion, short chains and small derivations; then ids.
#[derive(Clone, Copy, Debug, PartialEq, Eq, PartialOrd, Ord)]
pub struct Key {
    kind: u32,
    first: u32,
    second: u32,
    third: u32,
    id: u32,
    other: u32,
}

/// The head of a cursor, with its key.
#[derive(Clone, Copy, Debug, PartialEq, Eq)]
pub struct Head {
    pub(crate) turn: Turn,
    pub(crate) key: Key,
}

/// The key of a turn. No contract speaks of it: another order is another body of this function.
pub(crate) fn key_of(layout: &Layout, facts: &[LiveFact], series: Series, turn: Turn) -> Key
    requires { Rise 0 (map (λ f. f.id.0) facts.now) }
{
    match series {
        Series::Own(edge) => own_key(
            to_failing(layout, edge),
            rank_of(facts, turn.id),
            turn.id.0,
            edge,
        ),
        Series::Told(edge) => told_key(rank_of(facts, turn.id), turn.id.0, edge),
        Series::Beside(_, id) => beside_key(
            rank_of(facts, id),
            rank_of(facts, turn.id),
            id.0,
            turn.id.0,
        ),
    }
}

/// The rank of a live fact.
fn rank_of(facts: &[LiveFact], id: FactId) -> Rank
    requires { Rise 0 (map (λ f. f.id.0) facts.now) }
{
    match facts.get(first_from(facts, id)) {
        Some(fact) => fact.rank,
        None => Rank { size: 0, chain: 0 },
    }
}

fn to_failing(layout: &Layout, edge: u32) -> u32 {
    match layout.edge(edge) {
        Some(edge) => edge.to_failing,
        None => u32::MAX,
    }
}

fn own_key(distance: u32, rank: Rank, id: u32, edge: u32) -> Key {
    Key {
        kind: 0,
        first: distance,
        second: rank.chain,
        third: rank.size,
        id,
        other: edge,
    }
}

fn told_key(rank: Rank, id: u32, edge: u32) -> Key {
    Key {
        kind: 1,
        first: rank.chain,
        second: rank.size,
        third: 0,
        id,
        other: edge,
    }
}

fn beside_key(rank: Rank, told: Rank, id: u32, other: u32) -> Key {
    Key {
        kind: 2,
        first: told.size,
        second: rank.chain,
        third: rank.size,
        id,
        other,
    }
}
