//! The edge of a way on from a location.

ghost use Rattle.std.specs.Prelude.{◌≡◌, ◌+◌, ◌<◌, ◌≤◌, ◌^◌, ◌∷◌, [], ◌++◌, List, length, map, IfOk, OnOk};
ghost use Rattle.thr_base.specs.Limits.{most_tests};
ghost use Rattle.transition_formula.specs.Stored.{form_of, set_of};
ghost use Rattle.thread_cfg.specs.Path as path;
ghost use Rattle.thread_cfg.specs.Edge as specs;
ghost use Rattle.thread_cfg.specs.inside.Made.{StandWithin, edge_made_by, edge_seen, sets_seen, some_sets};
ghost use Rattle.thread_cfg.specs.inside.Meant.{StandFor, frame_of};
ghost use Rattle.thread_cfg.specs.inside.Seen as seen;

use crate::along::Along;
use crate::event::Event;
use crate::form::Setting;
use crate::frame::Frame;
use std::alloc::{AllocError, Global};
use thr_base::Loc;
use transition_formula::{Edge, Line};

/// What a way on from a location comes to.
#[derive(Debug, Drop)]
pub(crate) enum MadeEdge {
    Edge(Edge),
    /// No edge is made: a row of it is false whatever the values.
    Never,
    /// The place of the first expression or comparison in which a product or sum does not fit.
    Unfit(u32),
}

/// How many inputs events take.
fn inputs_in(events: &[Event<'_>]) -> u32
    requires { length events.now < 2 ^ 32 }
    ensures { result ≡ seen.inputs_in events.now }
{
    events.iter().filter(|event| event.takes_input()).count() as u32
}

/// Whether some event sets a column.
fn some_sets(frame: &Frame, events: &[Event<'_>], column: u32) -> bool
    ensures { result ≡ some_sets (frame_of frame.now) events.now column }
{
    events.iter().any(|event| event.sets(frame, column))
}

/// Appends a column with its line, where some event sets it.
fn push_if_set(
    frame: &Frame,
    events: &[Event<'_>],
    sets: &mut Vec<(u32, Line)>,
    column: u32,
    line: Line,
) -> Result<(), AllocError>
    ensures { OnOk result (map set_of sets.new.items ≡ map set_of sets.old.items ++ sets_seen (some_sets (frame_of frame.now) events.now) column (form_of line ∷ [])) }
{
    if some_sets(frame, events, column) {
        sets.push((column, line))?;
    }
    Ok(())
}

/// The columns that events set, in their order, each with its line.
fn sets_of(
    alloc: Global,
    frame: &Frame,
    events: &[Event<'_>],
    lines: Vec<Line>,
) -> Result<Vec<(u32, Line)>, AllocError>
    requires { length lines.items < 2 ^ 32 }
    ensures { IfOk result (λ sets. map set_of sets.items ≡ sets_seen (some_sets (frame_of frame.now) events.now) 0 (map form_of lines.items)) }
{
    let mut sets = Vec::new(alloc);
    let mut column = 0;
    'lines: for line in lines {
        push_if_set(frame, events, &mut sets, column, line)?;
        column += 1;
    }
    Ok(sets)
}

/// The edge of what is known behind all events, but none with a row that is false whatever the values.
fn edge_behind(
    alloc: Global,
    frame: &Frame,
    from: Loc,
    to: Loc,
    events: &[Event<'_>],
    along: Along,
) -> Result<MadeEdge, AllocError>
    requires { length along.lines.items < 2 ^ 32 }
    ensures { IfOk result (λ made. edge_made_by made ≡ Ok (edge_seen (frame_of frame.now) from.0 to.0 events.now (seen.held_in along))) }
{
    if along.never {
        return Ok(MadeEdge::Never);
    }
    let sets = sets_of(alloc, frame, events, along.lines)?;
    Ok(MadeEdge::Edge(Edge {
        from,
        to,
        inputs: along.inputs,
        tests: along.tests,
        sets,
    }))
}

/// The edge of a way on from a location to another, over so many columns.
pub(crate) fn alternative_edge(
    alloc: Global,
    columns: u32,
    frame: &Frame,
    from: Loc,
    to: Loc,
    events: &[Event<'_>],
) -> Result<MadeEdge, AllocError>
    requires within { StandWithin columns (frame_of frame.now) events.now }
    requires width { columns + length events.now < 2 ^ 32 }
    requires few { length events.now ≤ most_tests }
    ensures { (es : List path.Event) → StandFor events.now es → IfOk result (λ made. edge_made_by made ≡ specs.alternative_edge columns (frame_of frame.now) from.0 (record { events = es; to = to.0 })) }
{
    let setting = Setting {
        columns,
        width: columns + inputs_in(events),
        frame: *frame,
    };
    let mut along = Along::at_first(alloc, setting)?;
    let unfit = along.follow_all(alloc, setting, events)?;
    match unfit {
        Some(place) => Ok(MadeEdge::Unfit(place)),
        None => edge_behind(alloc, frame, from, to, events, along),
    }
}
