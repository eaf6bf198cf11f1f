//! The edges of the ways on from a location, with the first refusal.

ghost use Rattle.std.specs.Prelude.{◌≡◌, ◌≤◌, ℕ, List, [], ◌∷◌, length, OnOk};
ghost use Rattle.thr_base.specs.Limits.{most_tests};
ghost use Rattle.thread_cfg.specs.Action as action;
ghost use Rattle.thread_cfg.specs.Path as path;
ghost use Rattle.thread_cfg.specs.inside.Adds.{AddsActions, AddsWays, AreWithin, WaysWithin};
ghost use Rattle.thread_cfg.specs.inside.Meant.{StandFor, StandsFor};

use crate::edge::{MadeEdge, alternative_edge};
use crate::event::Event;
use crate::running::Running;
use crate::thread::Found;
use c_check::earlier;
use std::alloc::{AllocError, Global};
use thr_base::{COEFFICIENT, Loc, Refusal};

impl Found {
    /// The edge of one way.
    pub(crate) fn add_way(
        &mut self,
        alloc: Global,
        running: &Running,
        at: Loc,
        to: Loc,
        events: &[Event<'_>],
    ) -> Result<(), AllocError>
        requires few_events { length events.now ≤ most_tests }
        requires within { (es : List path.Event) × StandFor events.now es × WaysWithin running.now (record { events = es; to = to.0 } ∷ []) }
        ensures { (es : List path.Event) → StandFor events.now es
            → OnOk result (AddsWays running.now at.0 self.old self.new (record { events = es; to = to.0 } ∷ [])) }
    {
        let made = alternative_edge(alloc, running.columns, &running.frame, at, to, events)?;
        match made {
            MadeEdge::Edge(edge) => self.edges.push(edge)?,
            MadeEdge::Never => {}
            MadeEdge::Unfit(place) => {
                self.refusal = earlier(
                    self.refusal,
                    Some(Refusal {
                        code: COEFFICIENT,
                        place,
                    }),
                );
            }
        }
        Ok(())
    }

    /// The action of one event.
    pub(crate) fn add_simple(
        &mut self,
        alloc: Global,
        running: &Running,
        at: Loc,
        event: Event<'_>,
        to: Loc,
    ) -> Result<(), AllocError>
        requires within { (from : ℕ) × (e : path.Event) × StandsFor event e × AreWithin running.now (action.simple from e to.0 ∷ []) }
        ensures { (from : ℕ) (e : path.Event) → StandsFor event.entry e
            → OnOk result (AddsActions running.now at.0 self.old self.new (action.simple from e to.0 ∷ [])) }
    {
        let events = [event];
        self.add_way(alloc, running, at, to, &events)
    }

    /// The action of no event.
    pub(crate) fn add_jump(
        &mut self,
        alloc: Global,
        running: &Running,
        at: Loc,
        to: Loc,
    ) -> Result<(), AllocError>
        ensures { (from : ℕ) → OnOk result (AddsActions running.now at.0 self.old self.new (action.jump from to.0 ∷ [])) }
    {
        self.add_way(alloc, running, at, to, &[])
    }

    /// The action of a choice.
    pub(crate) fn add_choice(
        &mut self,
        alloc: Global,
        running: &Running,
        at: Loc,
        on_true: Loc,
        on_false: Loc,
    ) -> Result<(), AllocError>
        ensures { (from : ℕ) → OnOk result (AddsActions running.now at.0 self.old self.new (action.choice from on_true.0 on_false.0 ∷ [])) }
    {
        self.add_way(alloc, running, at, on_true, &[])?;
        self.add_way(alloc, running, at, on_false, &[])
    }
}
