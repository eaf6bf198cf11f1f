ghost use Rattle.std.specs.Prelude.{◌≡◌, ◌≢◌, ℕ, ◌-◌, ◌^◌, ◌<◌, ◌≤◌, ◌++◌, ◌∷◌, [], true, filter, IfOk, OnOk};
ghost use Rattle.thr_base.specs.Held.{holds, positions, ArePositionsOf, PositionsTellWords, WordsAreBelow};

use std::alloc::{AllocError, Global};

/// Whether a word of positions holds one, from 1.
pub fn holds(held: u128, position: u32) -> bool
    requires from_1 { 0 < position }
    requires to_128 { position ≤ 128 }
    ensures { result ≡ holds held position }
{
    held >> (position - 1) & 1 == 1
}

/// The word that holds this position, from 1, and all that the given one holds.
pub fn with_position(held: u128, position: u32) -> u128
    requires from_1 { 0 < position }
    requires to_128 { position ≤ 128 }
    ensures there { holds result position ≡ true }
    ensures others { (k : ℕ) → 0 < k → k ≢ position → holds result k ≡ holds held k }
    ensures below { held < 2 ^ position → result < 2 ^ position }
    // A position above all others is the last.
    ensures last { held < 2 ^ (position - 1) → positions result ≡ positions held ++ position ∷ [] }
{
    held | 1 << (position - 1)
}

/// The positions that a word holds, in rising order.
pub fn positions_of(alloc: Global, held: u128) -> Result<Vec<u32>, AllocError>
    ensures { IfOk result (λ list. list.items ≡ positions held) }
{
    let mut list = Vec::new(alloc);
    'positions: for position in 1..129 {
        push_if_held(&mut list, held, position)?;
    }
    Ok(list)
}

fn push_if_held(list: &mut Vec<u32>, held: u128, position: u32) -> Result<(), AllocError>
    requires from_1 { 0 < position }
    requires to_128 { position ≤ 128 }
    ensures { OnOk result (list.new.items ≡ list.old.items ++ filter (holds held) (position ∷ [])) }
{
    if holds(held, position) {
        list.push(position)?;
    }
    Ok(())
}

/// What the positions of a word are.
pub fn positions_are_those_held()
    ensures exact { (held : ℕ) → ArePositionsOf held (positions held) }
    ensures words { PositionsTellWords }
    ensures below { WordsAreBelow }
{}
