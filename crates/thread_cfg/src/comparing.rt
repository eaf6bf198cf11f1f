//! The edges of tests.

ghost use Rattle.std.specs.Prelude.{◌≡◌, ℕ, [], ◌∷◌, option_map, option_to_list, OnOk};
ghost use Rattle.c_check.specs.Plan.{Arithmetic};
ghost use Rattle.thread_cfg.specs.Action as action;
ghost use Rattle.thread_cfg.specs.Path as path;
ghost use Rattle.thread_cfg.specs.inside.Adds.{AddsActions, AddsWays, AreCompared, AreWithin, WaysWithin};
ghost use Rattle.thread_cfg.specs.inside.Passing.{location_of};

use crate::event::{Event, Expression};
use crate::marks::Relations;
use crate::relation::Relation;
use crate::running::Running;
use crate::thread::Found;
use c_check::Mark;
use std::alloc::{AllocError, Global};
use thr_base::Loc;

/// Two numbers, at the place of their comparison.
#[derive(Clone, Copy)]
pub(crate) struct Compared<'a> {
    pub(crate) from: u32,
    pub(crate) left: Expression<'a>,
    pub(crate) right: Expression<'a>,
}

impl Found {
    /// The way on where the relation holds.
    fn add_relation(
        &mut self,
        alloc: Global,
        running: &Running,
        at: Loc,
        relation: Relation,
        compared: &Compared<'_>,
        to: Loc,
    ) -> Result<(), AllocError>
        requires within { (a : Arithmetic) × (b : Arithmetic) × AreCompared compared.now a b
            × WaysWithin running.now (record { events = path.Event.Requires compared.now.from relation a b ∷ []; to = to.0 } ∷ []) }
        ensures { (a b : Arithmetic) → AreCompared compared.now a b → OnOk result (AddsWays running.now at.0 self.old self.new
            (record { events = path.Event.Requires compared.now.from relation a b ∷ []; to = to.0 } ∷ [])) }
    {
        let events = [Event::Requires {
            from: compared.from,
            relation,
            left: compared.left,
            right: compared.right,
        }];
        self.add_way(alloc, running, at, to, &events)
    }

    /// The ways on where one of the relations holds, where these lead anywhere.
    pub(crate) fn add_requiring(
        &mut self,
        alloc: Global,
        running: &Running,
        at: Loc,
        relations: Relations,
        compared: &Compared<'_>,
        to: Option<Loc>,
    ) -> Result<(), AllocError>
        requires within { (a : Arithmetic) × (b : Arithmetic) × AreCompared compared.now a b
            × WaysWithin running.now (action.requiring compared.now.from (relations.first ∷ option_to_list relations.second) a b (option_map location_of to)) }
        ensures { (a b : Arithmetic) → AreCompared compared.now a b → OnOk result (AddsWays running.now at.0 self.old self.new
            (action.requiring compared.now.from (relations.first ∷ option_to_list relations.second) a b (option_map location_of to))) }
    {
        let Some(to) = to else {
            return Ok(());
        };
        self.add_relation(alloc, running, at, relations.first, compared, to)?;
        match relations.second {
            Some(second) => self.add_relation(alloc, running, at, second, compared, to),
            None => Ok(()),
        }
    }

    /// The action of a test, with its two sides.
    pub(crate) fn add_test(
        &mut self,
        alloc: Global,
        running: &Running,
        at: Loc,
        mark: Mark,
        compared: &Compared<'_>,
        on_true: Option<Loc>,
        on_false: Option<Loc>,
    ) -> Result<(), AllocError>
        requires within { (a : Arithmetic) × (b : Arithmetic) × AreCompared compared.now a b
            × AreWithin running.now (action.test_action compared.now.from mark a b (option_map location_of on_true) (option_map location_of on_false) ∷ []) }
        ensures { (a b : Arithmetic) → AreCompared compared.now a b → OnOk result (AddsActions running.now at.0 self.old self.new
            (action.test_action compared.now.from mark a b (option_map location_of on_true) (option_map location_of on_false) ∷ [])) }
    {
        let when_true = Relations::when_true(mark);
        let when_false = Relations::when_false(mark);
        self.add_requiring(alloc, running, at, when_true, compared, on_true)?;
        self.add_requiring(alloc, running, at, when_false, compared, on_false)
    }
}
