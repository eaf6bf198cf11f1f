ghost use Rattle.std.specs.Prelude.{◌≡◌, ◌<◌, ◌≤◌, Option, length, map, slice_index_or, MatchOption};
ghost use Rattle.instance_cursors.specs.declared.key.Head.{Head as HeadOf};
ghost use Rattle.std.specs.Vec.{vec_capacity};
ghost use Rattle.thr_base.specs.Held.{Rise};
ghost use Rattle.instance_cursors.specs.Cursors.{AreHeads, IsHeadOf, passed_at};
ghost use Rattle.instance_cursors.specs.Turns.{HoldsNoneAfter, IsNextAfter, has_turn};
ghost use Rattle.instance_cursors.specs.inside.Chosen as chosen;
ghost use Rattle.instance_cursors.specs.inside.Follows.{HeadFollows, HeadsFollow};

use crate::early::{Early, same_turn};
use crate::finding::Place;
use crate::key::{Head, key_of};
use crate::layout::Layout;
use crate::moving::pass_at;
use crate::turns::{Cursor, Turn, head, next_step};
use fact_table::LiveFact;

/// The head of a cursor, with its key.
pub(crate) fn head_of(
    layout: &Layout,
    early: &[Early],
    facts: &[LiveFact],
    cursor: Cursor,
) -> Option<Head>
    requires { Rise 0 (map (λ f. f.id.0) facts.now) }
    ensures { IsHeadOf layout.now early.now facts.now cursor result }
{
    match head(layout, early, facts, cursor) {
        Some(turn) => Some(Head {
            turn,
            key: key_of(layout, facts, cursor.series, turn),
        }),
        None => None,
    }
}

/// Looks for the head of each cursor.
fn find_heads(
    layout: &Layout,
    early: &[Early],
    facts: &[LiveFact],
    cursors: &[Cursor],
    heads: &mut [Option<Head>],
)
    requires ids { Rise 0 (map (λ f. f.id.0) facts.now) }
    requires count { length heads.old ≡ length cursors.now }
    ensures { AreHeads layout.now early.now facts.now cursors.now heads.new }
{
    for place in 0..cursors.len() {
        heads[place] = head_of(layout, early, facts, cursors[place]);
    }
}

/// The head of a cursor where a fact came, the last one, before which it had this head.
fn head_with(
    layout: &Layout,
    early: &[Early],
    facts: &[LiveFact],
    fact: LiveFact,
    cursor: Cursor,
    head: Option<Head>,
) -> Option<Head>
    requires { Rise 0 (map (λ f. f.id.0) facts.now) }
    ensures { HeadFollows layout.now early.now facts.now fact cursor head result }
{
    match head {
        Some(found) => Some(found),
        None => head_at(layout, early, facts, fact, cursor),
    }
}

/// The first turn of a fact in a cursor's series, with its key.
fn head_at(
    layout: &Layout,
    early: &[Early],
    facts: &[LiveFact],
    fact: LiveFact,
    cursor: Cursor,
) -> Option<Head>
    requires { Rise 0 (map (λ f. f.id.0) facts.now) }
    ensures { MatchOption result (HoldsNoneAfter (has_turn layout.now early.now cursor.series fact) 0) (λ found. (found.turn.id ≡ fact.id) × IsNextAfter (has_turn layout.now early.now cursor.series fact) 0 found.turn.step) }
{
    match next_step(layout, early, cursor.series, fact, 0) {
        Some(step) => {
            let turn = Turn { id: fact.id, step };
            Some(Head {
                turn,
                key: key_of(layout, facts, cursor.series, turn),
            })
        }
        None => None,
    }
}

/// Looks at a fact that came, the last one, for each cursor that had no head.
fn heads_with(
    layout: &Layout,
    early: &[Early],
    facts: &[LiveFact],
    fact: LiveFact,
    cursors: &[Cursor],
    heads: &mut [Option<Head>],
)
    requires ids { Rise 0 (map (λ f. f.id.0) facts.now) }
    requires count { length heads.old ≡ length cursors.now }
    ensures count { length heads.new ≡ length cursors.now }
    ensures heads { HeadsFollow layout.now early.now facts.now fact cursors.now heads.old heads.new (length cursors.now) }
{
    for place in 0..cursors.len() {
        heads[place] = head_with(layout, early, facts, fact, cursors[place], heads[place]);
    }
}

/// Looks for the head of each cursor, of which there are no more than before.
pub(crate) fn find_all(
    layout: &Layout,
    early: &[Early],
    facts: &[LiveFact],
    cursors: &[Cursor],
    heads: &mut Vec<Option<Head>>,
)
    requires ids { Rise 0 (map (λ f. f.id.0) facts.now) }
    requires count { length cursors.now ≤ length heads.old.items }
    ensures heads { AreHeads layout.now early.now facts.now cursors.now heads.new.items }
    ensures capacity { vec_capacity heads.new ≡ vec_capacity heads.old }
{
    heads.truncate(cursors.len());
    find_heads(layout, early, facts, cursors, heads);
}

/// Looks at a fact that came, the last one, for each cursor.
pub(crate) fn look_at(
    layout: &Layout,
    early: &[Early],
    facts: &[LiveFact],
    fact: LiveFact,
    cursors: &[Cursor],
    heads: &mut Vec<Option<Head>>,
)
    requires ids { Rise 0 (map (λ f. f.id.0) facts.now) }
    requires count { length heads.old.items ≡ length cursors.now }
    ensures count { length heads.new.items ≡ length cursors.now }
    ensures heads { HeadsFollow layout.now early.now facts.now fact cursors.now heads.old.items heads.new.items (length cursors.now) }
    ensures capacity { vec_capacity heads.new ≡ vec_capacity heads.old }
{
    heads_with(layout, early, facts, fact, cursors, heads);
}

/// Whether the head of the cursor at a place is a turn.
pub(crate) fn is_head_at(heads: &[Option<Head>], at: Place) -> bool
    requires { at.place < length heads.now }
    ensures { (d : Option HeadOf) → result ≡ chosen.is_head (slice_index_or heads.now at.place d) at.turn }
{
    is_head(heads[at.place], at.turn)
}

/// Whether a cursor's head is this turn.
fn is_head(head: Option<Head>, turn: Turn) -> bool
    ensures { result ≡ chosen.is_head head turn }
{
    match head {
        Some(head) => same_turn(turn, head.turn),
        None => false,
    }
}

/// The cursor at a place moves on past a turn, to its next head.
pub(crate) fn move_on(
    layout: &Layout,
    early: &[Early],
    facts: &[LiveFact],
    cursors: &mut Vec<Cursor>,
    heads: &mut Vec<Option<Head>>,
    at: Place,
)
    requires ids { Rise 0 (map (λ f. f.id.0) facts.now) }
    requires count { length heads.old.items ≡ length cursors.old.items }
    requires place { at.place < length cursors.old.items }
    ensures cursors { cursors.new.items ≡ passed_at cursors.old.items at.place at.turn }
    ensures heads { AreHeads layout.now early.now facts.now cursors.old.items heads.old.items → AreHeads layout.now early.now facts.now cursors.new.items heads.new.items }
    ensures rooms { (vec_capacity cursors.new ≡ vec_capacity cursors.old) × (vec_capacity heads.new ≡ vec_capacity heads.old) }
{
    pass_at(cursors, at.place, at.turn);
    let cursor = cursors[at.place];
    heads[at.place] = head_of(layout, early, facts, cursor);
}
