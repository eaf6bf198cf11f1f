ghost use Rattle.std.specs.Prelude.{◌≡◌, option_map};
ghost use Rattle.core_steps.specs.Course.{opening_of, state_of};
ghost use Rattle.core_steps.specs.Legal.{IsLegal};
ghost use Rattle.core_steps.specs.State.{IsOpening};
ghost use Rattle.core_steps.specs.Readers.{IsListsOf, IsTableOf};
ghost use Rattle.core_steps.specs.Stored.{history_of, reason_of};

use crate::event::{Event, Reason};
use crate::held::Held;
use fact_table::Table;
use pending_instances::PendingInstances;
use predicate_sets::{HomeSet, Sets};
use std::marker::Model;
use std::sync::Arc;
use thr_base::{FactId, Limits, RuleName};
use transition_formula::Program;

/// A run: what it opened with, and its journal. All else that it holds is what these say.
#[derive(Drop)]
pub struct Core<'p> {
    pub(crate) program: &'p Program,
    pub(crate) start: Sets,
    pub(crate) rule: RuleName,
    pub(crate) limits: Limits,
    pub(crate) workers: u32,
    pub(crate) sets: Sets,
    /// The list of each home, to be handed out.
    pub(crate) lists: Vec<Arc<HomeSet>>,
    pub(crate) epochs: Vec<u32>,
    pub(crate) table: Table,
    pub(crate) waiting: PendingInstances,
    pub(crate) holds: Vec<Option<Held>>,
    pub(crate) claims: Vec<Option<FactId>>,
    pub(crate) published: u32,
    pub(crate) refined: u32,
    /// The place of the stop in the journal.
    pub(crate) stopped: Option<usize>,
    pub(crate) journal: Vec<Event<'p>>,
}

impl<'p> Model for Core<'p> {
    ghost use Rattle.core_steps.specs.Course.{Course};

    ghost Value = { Course };

    ghost use Rattle.core_steps.specs.inside.Kept.{IsKept, seen};

    ghost view = { seen };

    ghost invariant = { IsKept };
}

impl<'p> Core<'p> {
    pub fn program(&self) -> &'p Program
        ensures program { result.now ≡ self.now.program }
        ensures opening { IsOpening (opening_of self.now) }
    {
        self.program
    }

    /// The number of workers.
    pub fn workers(&self) -> u32
        ensures { result ≡ self.now.workers }
    {
        self.workers
    }

    /// The predicates that it opened with.
    pub fn start(&self) -> &Sets
        ensures { result.now ≡ self.now.start }
    {
        &self.start
    }

    pub fn rule(&self) -> RuleName
        ensures { result ≡ self.now.rule }
    {
        self.rule
    }

    pub fn limits(&self) -> Limits
        ensures { result ≡ self.now.limits }
    {
        self.limits
    }

    /// The predicates that homes have now.
    pub fn sets(&self) -> &Sets
        ensures { IsListsOf self.now.program (state_of self.now) result.now }
    {
        &self.sets
    }

    /// The live facts.
    pub fn table(&self) -> &Table
        ensures { IsTableOf self.now.program (state_of self.now) result.now }
    {
        &self.table
    }

    /// The events so far, by rising time.
    pub fn journal(&self) -> &[Event<'p>]
        ensures history { history_of self.now.program result.now ≡ self.now.history }
        ensures legal { IsLegal (opening_of self.now) self.now.history }
    {
        self.journal.as_slice()
    }

    /// Why it stopped, if it did.
    pub fn reason(&self) -> Option<&Reason<'p>>
        ensures { (state_of self.now).stop ≡ option_map (λ reason. reason_of reason.now) result }
    {
        let place = self.stopped?;
        match &self.journal[place] {
            Event::Stop(_, reason) => Some(reason),
            _ => unreachable!(),
        }
    }
}
