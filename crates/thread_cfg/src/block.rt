//! The edges of an atomic block: one for each of its paths.

ghost use Rattle.std.specs.Prelude.{◌≡◌, ◌≤◌, nat_lt, false, List, [], ◌∷◌, length, map, Some, IfOk, OnOk};
ghost use Rattle.std.specs.List.{list_any};
ghost use Rattle.thr_base.specs.Limits.{most_tests};
ghost use Rattle.thr_base.specs.Refusals.{too_many};
ghost use Rattle.c_check.specs.First as first;
ghost use Rattle.c_check.specs.Plan as plan;
ghost use Rattle.thread_cfg.specs.Action as action;
ghost use Rattle.thread_cfg.specs.Path as a_path;
ghost use Rattle.thread_cfg.specs.inside.Adds.{AddsActions, AddsWays, AreWithin, WaysWithin};
ghost use Rattle.thread_cfg.specs.inside.Few.{path_written};
ghost use Rattle.thread_cfg.specs.inside.Gone.{event_of, is_failing, is_long_path, path_of};

use crate::event::Event;
use crate::going::block_ways;
use crate::paths::{Ending, Path, Ways};
use crate::running::Running;
use crate::thread::Found;
use c_check::{Instruction, earlier};
use std::alloc::{AllocError, Global};
use thr_base::{Loc, MOST_TESTS, Refusal, TOO_MANY};

impl<'a> Path<'a> {
    /// What happens, in order.
    fn in_order(&self, alloc: Global) -> Result<Vec<Event<'a>>, AllocError>
        ensures { IfOk result (λ events. map event_of events.items ≡ (path_of self.now).events) }
    {
        let mut events = Vec::from_slice(alloc, self.events.as_slice())?;
        events.reverse();
        Ok(events)
    }

    /// More happens on it than an edge may have tests or inputs.
    fn is_long(&self) -> bool
        ensures { result ≡ is_long_path self.now }
    {
        self.events.len() > MOST_TESTS as usize
    }
}

/// More happens on one of the paths than an edge may have tests or inputs.
fn has_long(paths: &[Path<'_>]) -> bool
    ensures { result ≡ list_any is_long_path paths.now }
{
    paths.iter().any(|path| path.is_long())
}

/// Where a path leads that ends so.
fn target(next: Loc, ending: Ending) -> Loc
    ensures { result.0 ≡ action.path_target next.0 (is_failing ending) }
{
    match ending {
        Ending::Through => next,
        Ending::Failing => Loc(0),
    }
}

impl Found {
    /// The block is too large, which is said at its first word.
    fn refuse_block(&mut self, from: u32)
        ensures refusal { self.new.refusal ≡ first.earlier self.old.refusal (Some (record { code = too_many; place = from })) }
        ensures edges { self.new.edges ≡ self.old.edges }
    {
        self.refusal = earlier(
            self.refusal,
            Some(Refusal {
                code: TOO_MANY,
                place: from,
            }),
        );
    }

    /// The edge of a path.
    fn add_path(
        &mut self,
        alloc: Global,
        running: &Running,
        at: Loc,
        path: &Path<'_>,
        next: Loc,
    ) -> Result<(), AllocError>
        requires short { is_long_path path.now ≡ false }
        requires within { (p : a_path.Path) × (path_of path.now ≡ path_written p) × WaysWithin running.now (action.path_alternative next.0 p ∷ []) }
        ensures { (p : a_path.Path) → path_of path.now ≡ path_written p
            → OnOk result (AddsWays running.now at.0 self.old self.new (action.path_alternative next.0 p ∷ [])) }
    {
        let events = path.in_order(alloc)?;
        let to = target(next, path.ending);
        self.add_way(alloc, running, at, to, events.as_slice())
    }

    /// The edges of paths, in their order.
    fn add_paths(
        &mut self,
        alloc: Global,
        running: &Running,
        at: Loc,
        paths: &[Path<'_>],
        next: Loc,
    ) -> Result<(), AllocError>
        requires short { list_any is_long_path paths.now ≡ false }
        requires within { (ps : List a_path.Path) × (map path_of paths.now ≡ map path_written ps) × WaysWithin running.now (map (action.path_alternative next.0) ps) }
        ensures { (ps : List a_path.Path) → map path_of paths.now ≡ map path_written ps
            → OnOk result (AddsWays running.now at.0 self.old self.new (map (action.path_alternative next.0) ps)) }
    {
        'paths: for path in paths {
            self.add_path(alloc, running, at, path, next)?;
        }
        Ok(())
    }

    /// The edges of a block's paths, unless it is too large.
    pub(crate) fn add_block(
        &mut self,
        alloc: Global,
        running: &Running,
        at: Loc,
        from: u32,
        code: &[Instruction],
        next: Loc,
    ) -> Result<(), AllocError>
        requires within { (inner : plan.Stmts) × (code.now ≡ plan.code inner) × AreWithin running.now (action.block_action from inner next.0 ∷ []) }
        ensures { (inner : plan.Stmts) → code.now ≡ plan.code inner
            → OnOk result (AddsActions running.now at.0 self.old self.new (action.block_action from inner next.0 ∷ [])) }
    {
        let ways = block_ways(alloc, code)?;
        match ways {
            Ways::Few(paths) => {
                if has_long(paths.as_slice()) {
                    self.refuse_block(from);
                    return Ok(());
                }
                self.add_paths(alloc, running, at, paths.as_slice(), next)
            }
            Ways::Many => {
                self.refuse_block(from);
                Ok(())
            }
        }
    }
}
