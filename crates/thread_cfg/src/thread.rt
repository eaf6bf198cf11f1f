//! What is found of a thread: its edges, or the first reason why it is refused.

ghost use Rattle.std.specs.Prelude.{◌≡◌, ◌≤◌, map, IfOk};
ghost use Rattle.thr_base.specs.Limits.{most_columns};
ghost use Rattle.c_check.specs.Check.{stored_function};
ghost use Rattle.c_check.specs.Program as program;
ghost use Rattle.thread_cfg.specs.Graph as graph;
ghost use Rattle.thread_cfg.specs.inside.Found.{IsFoundOf};
ghost use Rattle.thread_cfg.specs.inside.Meant.{frame_of};
ghost use Rattle.thread_cfg.specs.inside.Within.{ActionsWithin};

use crate::counter::count_locations;
use crate::frame::Frame;
use crate::pass::parts_of_code;
use crate::running::Running;
use c_check::Function;
use std::alloc::{AllocError, Global};
use thr_base::{Loc, Refusal, TOO_MANY};
use transition_formula::Edge;

/// What there is of a thread, which is of use where it is not refused.
#[derive(Drop)]
pub(crate) struct Found {
    /// That of failing and the last one among them.
    pub(crate) locations: u32,
    pub(crate) edges: Vec<Edge>,
    pub(crate) refusal: Option<Refusal>,
}

/// What is found of a thread that runs the function.
pub(crate) fn find_edges(
    alloc: Global,
    columns: u32,
    frame: &Frame,
    function: &Function,
) -> Result<Found, AllocError>
    requires few_columns { columns ≤ most_columns }
    requires of_text { (f : program.Function) × (function.now ≡ stored_function f)
        × ActionsWithin columns (frame_of frame.now) (graph.actions_of (record { frame = frame_of frame.now; function = f })) }
    ensures { (f : program.Function) → function.now ≡ stored_function f
        → IfOk result (λ found. IsFoundOf columns (record { frame = frame_of frame.now; function = f }) found) }
{
    let code = function.body.as_slice();
    let mut found = Found {
        locations: 0,
        edges: Vec::new(alloc),
        refusal: None,
    };
    let counted = count_locations(alloc, code)?;
    let Some(counter) = counted else {
        found.refusal = Some(Refusal {
            code: TOO_MANY,
            place: function.from,
        });
        return Ok(found);
    };
    let exit = counter.at;
    let parts = parts_of_code(alloc, code, Loc(exit), counter.loops)?;
    let running = Running {
        columns,
        frame: *frame,
        temporary: function.locals,
    };
    found.add_parts(alloc, &running, parts.as_slice())?;
    found.locations = exit + 1;
    Ok(found)
}
