ghost use Rattle.std.specs.Prelude.{◌≡◌, ◌<◌, ◌≤◌, ◌++◌, ◌∷◌, [], length, map, filter, take, IfOk};
ghost use Rattle.std.specs.Vec.{vec_capacity};
ghost use Rattle.instance_cursors.specs.Cursors as specs;

use crate::early::Early;
use crate::instances::target_of;
use crate::key::Head;
use crate::layout::Layout;
use crate::start::Start;
use crate::turns::{Cursor, Series, Turn};
use fact_table::LiveFact;
use std::alloc::{AllocError, Global};
use thr_base::{FactId, HomeNo, ThreadNo};

/// A cursor that has passed nothing.
pub(crate) fn at_beginning(series: Series) -> Cursor
    ensures { result ≡ specs.at_beginning series }
{
    Cursor {
        series,
        passed: Turn {
            id: FactId(0),
            step: 0,
        },
    }
}

/// Two cursors for each edge.
pub(crate) fn edge_cursors(alloc: Global, edges: u32) -> Result<Vec<Cursor>, AllocError>
    ensures { IfOk result (λ cursors. cursors.items ≡ specs.edge_cursors edges) }
{
    let mut cursors = Vec::new(alloc);
    for edge in 0..edges {
        cursors.push(at_beginning(Series::Own(edge)))?;
        cursors.push(at_beginning(Series::Told(edge)))?;
    }
    Ok(cursors)
}

/// Whether a cursor is of an edge, or of a live fact.
fn is_of_live(facts: &[LiveFact], cursor: Cursor) -> bool
    ensures { result ≡ specs.is_of_live facts.now cursor }
{
    match cursor.series {
        Series::Own(_) => true,
        Series::Told(_) => true,
        Series::Beside(_, id) => is_live(facts, id),
    }
}

fn is_live(facts: &[LiveFact], id: FactId) -> bool
    ensures { result ≡ specs.is_live facts.now id }
{
    facts.iter().any(|fact| fact.id.0 == id.0)
}

/// Takes out the cursors of facts that are not live.
pub(crate) fn keep_live(cursors: &mut Vec<Cursor>, facts: &[LiveFact])
    ensures cursors { cursors.new.items ≡ filter (specs.is_of_live facts.now) cursors.old.items }
    ensures capacity { vec_capacity cursors.new ≡ vec_capacity cursors.old }
{
    let kept = move_live(cursors, facts);
    cursors.truncate(kept);
}

/// Moves the cursors that stay to the front, and says how many they are.
fn move_live(cursors: &mut [Cursor], facts: &[LiveFact]) -> usize
    ensures { take result cursors.new ≡ filter (specs.is_of_live facts.now) cursors.old }
{
    let mut kept = 0;
    for place in 0..cursors.len() {
        let cursor = cursors[place];
        if is_of_live(facts, cursor) {
            cursors[kept] = cursor;
            kept += 1;
        }
    }
    kept
}

/// Takes a thread's start.
fn take_start(starts: &mut [Start], thread: ThreadNo)
    ensures { starts.new ≡ map (specs.start_taken thread) starts.old }
{
    for start in starts.iter_mut() {
        *start = start_taken(thread, *start);
    }
}

fn start_taken(thread: ThreadNo, start: Start) -> Start
    ensures { result ≡ specs.start_taken thread start }
{
    if start.thread.0 == thread.0 {
        Start {
            taken: true,
            ..start
        }
    } else {
        start
    }
}

/// The cursor at a place moves on past a turn.
pub(crate) fn pass_at(cursors: &mut Vec<Cursor>, place: usize, turn: Turn)
    requires { place < length cursors.old.items }
    ensures cursors { cursors.new.items ≡ specs.passed_at cursors.old.items place turn }
    ensures count { length cursors.new.items ≡ length cursors.old.items }
    ensures capacity { vec_capacity cursors.new ≡ vec_capacity cursors.old }
{
    let cursor = cursors[place];
    cursors[place] = Cursor {
        passed: turn,
        ..cursor
    };
}

fn is_among(homes: &[HomeNo], home: HomeNo) -> bool
    ensures { result ≡ specs.is_among homes.now home }
{
    homes.contains(&home)
}

/// Whether the instances of a series lead to one of these homes.
fn leads_to(layout: &Layout, homes: &[HomeNo], series: Series) -> bool
    ensures { result ≡ specs.leads_to layout.now homes.now series }
{
    is_among(homes, target_of(layout, series))
}

fn cursor_back(layout: &Layout, homes: &[HomeNo], cursor: Cursor) -> Cursor
    ensures { result ≡ specs.cursor_back layout.now homes.now cursor }
{
    if leads_to(layout, homes, cursor.series) {
        at_beginning(cursor.series)
    } else {
        cursor
    }
}

fn start_back(homes: &[HomeNo], start: Start) -> Start
    ensures { result ≡ specs.start_back homes.now start }
{
    if is_among(homes, start.home) {
        Start {
            taken: false,
            ..start
        }
    } else {
        start
    }
}

/// Opens the starts that lead to these homes.
fn starts_back(starts: &mut [Start], homes: &[HomeNo])
    ensures { starts.new ≡ map (specs.start_back homes.now) starts.old }
{
    for start in starts.iter_mut() {
        *start = start_back(homes, *start);
    }
}

/// Sets the cursors to the beginning that lead to these homes.
fn cursors_back(cursors: &mut [Cursor], layout: &Layout, homes: &[HomeNo])
    ensures { cursors.new ≡ map (specs.cursor_back layout.now homes.now) cursors.old }
{
    for cursor in cursors.iter_mut() {
        *cursor = cursor_back(layout, homes, *cursor);
    }
}

fn stays_early(layout: &Layout, homes: &[HomeNo], early: Early) -> bool
    ensures { result ≡ specs.stays_early layout.now homes.now early }
{
    !leads_to(layout, homes, early.series)
}

/// Forgets the turns taken early that lead to these homes.
pub(crate) fn early_back(early: &mut Vec<Early>, layout: &Layout, homes: &[HomeNo])
    ensures { early.new.items ≡ filter (specs.stays_early layout.now homes.now) early.old.items }
{
    let kept = move_early(early, layout, homes);
    early.truncate(kept);
}

fn move_early(early: &mut [Early], layout: &Layout, homes: &[HomeNo]) -> usize
    ensures { take result early.new ≡ filter (specs.stays_early layout.now homes.now) early.old }
{
    let mut kept = 0;
    for place in 0..early.len() {
        let each = early[place];
        if stays_early(layout, homes, each) {
            early[kept] = each;
            kept += 1;
        }
    }
    kept
}

/// Puts a fact behind the others, where there is room.
pub(crate) fn push_fact(facts: &mut Vec<LiveFact>, fact: LiveFact)
    requires { length facts.old.items < vec_capacity facts.old }
    ensures items { facts.new.items ≡ facts.old.items ++ fact ∷ [] }
    ensures capacity { vec_capacity facts.old ≤ vec_capacity facts.new }
{
    if facts.push(fact).is_err() {
        unreachable!()
    }
}

pub(crate) fn push_cursor(cursors: &mut Vec<Cursor>, cursor: Cursor)
    requires { length cursors.old.items < vec_capacity cursors.old }
    ensures items { cursors.new.items ≡ cursors.old.items ++ cursor ∷ [] }
    ensures capacity { vec_capacity cursors.old ≤ vec_capacity cursors.new }
{
    if cursors.push(cursor).is_err() {
        unreachable!()
    }
}

pub(crate) fn push_head(heads: &mut Vec<Option<Head>>, head: Option<Head>)
    requires { length heads.old.items < vec_capacity heads.old }
    ensures items { heads.new.items ≡ heads.old.items ++ head ∷ [] }
    ensures capacity { vec_capacity heads.old ≤ vec_capacity heads.new }
{
    if heads.push(head).is_err() {
        unreachable!()
    }
}

/// Puts these facts in the place of all others.
pub(crate) fn set_facts(facts: &mut Vec<LiveFact>, left: &[LiveFact])
    requires { length left.now ≤ vec_capacity facts.old }
    ensures items { facts.new.items ≡ left.now }
    ensures capacity { vec_capacity facts.old ≤ vec_capacity facts.new }
{
    facts.clear();
    for place in 0..left.len() {
        push_fact(facts, left[place]);
    }
}

/// As many places without heads as there are edges' cursors, with room for more.
pub(crate) fn no_heads(alloc: Global, count: usize) -> Result<Vec<Option<Head>>, AllocError>
    ensures { IfOk result (λ heads. length heads.items ≡ count) }
{
    let heads = vec![in alloc; None; count]?;
    Ok(heads)
}

pub(crate) fn take_thread(starts: &mut Vec<Start>, thread: ThreadNo)
    ensures { starts.new.items ≡ map (specs.start_taken thread) starts.old.items }
{
    take_start(starts, thread);
}

pub(crate) fn set_starts_back(starts: &mut Vec<Start>, homes: &[HomeNo])
    ensures { starts.new.items ≡ map (specs.start_back homes.now) starts.old.items }
{
    starts_back(starts, homes);
}

pub(crate) fn set_cursors_back(cursors: &mut Vec<Cursor>, layout: &Layout, homes: &[HomeNo])
    ensures cursors { cursors.new.items ≡ map (specs.cursor_back layout.now homes.now) cursors.old.items }
    ensures capacity { vec_capacity cursors.new ≡ vec_capacity cursors.old }
{
    cursors_back(cursors, layout, homes);
}
