ghost use Rattle.std.specs.Prelude.{◌≡◌, ◌<◌, ◌⊎◌, ◌↔◌, IsTrue, false, length, slice_index_or, MatchOption};
ghost use Rattle.thr_base.specs.declared.names.Instance.TheVariants.{Init};
ghost use Rattle.instance_cursors.specs.declared.start.Start.{Start as StartOf};
ghost use Rattle.instance_cursors.specs.declared.turns.Cursor.{Cursor as CursorOf};
ghost use Rattle.instance_cursors.specs.Choice as specs;
ghost use Rattle.instance_cursors.specs.inside.Chosen as chosen;
ghost use Rattle.instance_cursors.specs.inside.Found as inside;

use crate::instances::{instance_of, target_of, thread_at};
use crate::key::Head;
use crate::layout::Layout;
use crate::start::Start;
use crate::turns::Cursor;
use thr_base::{HomeNo, Instance, ThreadNo};

/// What may be taken next, and the home of which it may give a fact.
#[derive(Clone, Copy, Debug, PartialEq, Eq)]
pub struct Next {
    pub instance: Instance,
    pub home: HomeNo,
}

/// The head of the cursor at a place.
#[derive(Clone, Copy)]
pub(crate) struct Found {
    pub(crate) place: usize,
    pub(crate) head: Head,
}

/// The first start that was not taken.
pub(crate) fn first_start(
    layout: &Layout,
    starts: &[Start],
    only: Option<ThreadNo>,
) -> Option<usize>
    ensures { MatchOption result (specs.AllAreTaken layout.now only starts.now) (specs.IsOpenStart layout.now only starts.now) }
{
    for place in 0..starts.len() {
        if is_open(layout, starts[place], only) {
            return Some(place);
        }
    }
    None
}

fn is_open(layout: &Layout, start: Start, only: Option<ThreadNo>) -> bool
    ensures { result ≡ specs.is_open layout.now only start }
{
    !start.taken && is_wanted(thread_at(layout, start.home), only)
}

fn is_wanted(thread: ThreadNo, only: Option<ThreadNo>) -> bool
    ensures { result ≡ specs.is_wanted only thread }
{
    match only {
        Some(wanted) => thread.0 == wanted.0,
        None => true,
    }
}

/// The head with the least key.
pub(crate) fn best_head(
    layout: &Layout,
    cursors: &[Cursor],
    heads: &[Option<Head>],
    only: Option<ThreadNo>,
) -> Option<Found>
    requires { length heads.now ≡ length cursors.now }
    ensures { MatchOption result (specs.NoneHasHead layout.now only cursors.now heads.now) (λ found. specs.HasHead layout.now only cursors.now heads.now found.place found.head) }
{
    let mut best = None;
    for place in 0..cursors.len() {
        let found = head_at(layout, cursors, heads, only, place);
        best = better(best, found);
    }
    best
}

fn head_at(
    layout: &Layout,
    cursors: &[Cursor],
    heads: &[Option<Head>],
    only: Option<ThreadNo>,
    place: usize,
) -> Option<Found>
    requires count { length heads.now ≡ length cursors.now }
    requires place { place < length cursors.now }
    ensures { MatchOption result (specs.HasNoHead layout.now only cursors.now heads.now place) (λ found. specs.HasHead layout.now only cursors.now heads.now found.place found.head) }
{
    let head = heads[place]?;
    let cursor = cursors[place];
    if leads_there(layout, cursor, only) {
        Some(Found { place, head })
    } else {
        None
    }
}

fn leads_there(layout: &Layout, cursor: Cursor, only: Option<ThreadNo>) -> bool
    ensures { result ≡ specs.leads_there layout.now only cursor.series }
{
    is_wanted(thread_at(layout, target_of(layout, cursor.series)), only)
}

/// The one with the lesser key.
fn better(one: Option<Found>, other: Option<Found>) -> Option<Found>
    ensures { inside.IsEither one other result }
{
    match one {
        None => other,
        Some(first) => match other {
            None => Some(first),
            Some(second) => Some(lesser(first, second)),
        },
    }
}

fn lesser(first: Found, second: Found) -> Found
    ensures { (result ≡ first) ⊎ (result ≡ second) }
{
    if second.head.key < first.head.key {
        second
    } else {
        first
    }
}

pub(crate) fn next_start(starts: &[Start], place: usize) -> Next
    requires { place < length starts.now }
    ensures { (d : StartOf) → result ≡ chosen.next_start (slice_index_or starts.now place d) }
{
    let start = starts[place];
    Next {
        instance: Instance::Init(start.thread),
        home: start.home,
    }
}

pub(crate) fn next_head(layout: &Layout, cursors: &[Cursor], found: Found) -> Next
    requires { found.place < length cursors.now }
    ensures { (d : CursorOf) → result ≡ chosen.next_turn layout.now (slice_index_or cursors.now found.place d) found.head.turn }
{
    let series = cursors[found.place].series;
    Next {
        instance: instance_of(layout, series, found.head.turn),
        home: target_of(layout, series),
    }
}

/// The home of a thread's start, if it was not taken.
pub(crate) fn open_start(starts: &[Start], thread: ThreadNo) -> Option<HomeNo>
    ensures { MatchOption result (chosen.HasNoStart starts.now thread) (chosen.HasStart starts.now thread) }
{
    for place in 0..starts.len() {
        let start = starts[place];
        if is_untaken(start, thread) {
            return Some(start.home);
        }
    }
    None
}

fn is_untaken(start: Start, thread: ThreadNo) -> bool
    ensures { IsTrue result ↔ ((start.taken ≡ false) × (Init start.thread ≡ Init thread)) }
{
    !start.taken && start.thread == thread
}
