ghost use Rattle.std.specs.Prelude.{◌≡◌, ◌<◌, length, IfOk, OnErr, MatchOption};
ghost use Rattle.transition_formula.specs.Program as formula;
ghost use Rattle.pending_instances.specs.Calls.{Begins, Closes, HasCome, IsFor, IsLeft, IsNext, IsOpen, IsOpenTo, NoneIsOpen, Opens, Reopens};
ghost use Rattle.pending_instances.specs.Pending.{AreAtHomes};

use crate::layouts::{layout_of, starts_of};
use fact_table::Table;
use horn_rules::stored_values_tell_what_they_stand_for;
use instance_cursors::{Cursors, Next};
use std::alloc::{AllocError, Global};
use std::marker::Model;
use thr_base::{HomeNo, Instance, RuleName, ThreadNo};
use transition_formula::Program;

/// Which instances of the rules over a program are pending: cursors over its layout.
#[derive(Drop)]
pub struct PendingInstances {
    cursors: Cursors,
}

impl Model for PendingInstances {
    ghost use Rattle.instance_cursors.specs.Waiting.{Waiting};

    ghost Value = { Waiting };

    ghost view = { λ inside. inside.cursors };
}

impl PendingInstances {
    /// Nothing is live yet, and nothing was taken. There is room for so many facts.
    pub fn new(
        alloc: Global,
        program: &Program,
        rule: RuleName,
        facts: u32,
    ) -> Result<PendingInstances, AllocError>
        ensures { IfOk result (Begins program.now rule facts) }
    {
        stored_values_tell_what_they_stand_for();
        let layout = layout_of(alloc, program, rule)?;
        let starts = starts_of(alloc, program)?;
        let cursors = Cursors::new(alloc, layout, starts, facts)?;
        Ok(PendingInstances { cursors })
    }

    /// What may be taken next: what leads to homes of this thread before what leads to others.
    pub fn choose(&self, thread: ThreadNo) -> Option<Next>
        ensures { MatchOption result (NoneIsOpen self.now) (IsNext thread.0 self.now) }
    {
        stored_values_tell_what_they_stand_for();
        self.cursors.open_instances_lead();
        self.cursors.choose(thread)
    }

    /// The number of the home to which an instance leads, if it is open.
    pub fn home_if_open(&self, instance: Instance) -> Option<HomeNo>
        ensures { MatchOption result (¬ IsOpen self.now instance) (IsOpenTo self.now instance) }
    {
        stored_values_tell_what_they_stand_for();
        self.cursors.open_instances_lead();
        self.cursors.home_if_open(instance)
    }

    /// An open instance is taken. Where this answers that there is no memory, nothing has changed.
    pub fn take(&mut self, instance: Instance) -> Result<(), AllocError>
        requires { IsOpen self.old instance }
        ensures closes { IfOk result (λ _. (program : formula.Program) → IsFor program self.old → Closes program self.old instance self.new) }
        ensures err { OnErr result (self.new ≡ self.old) }
    {
        self.cursors.take(instance)
    }

    /// The last fact of the table became live. It takes no memory.
    pub fn came(&mut self, table: &Table)
        requires room { length self.old.live < self.old.room }
        requires came { HasCome self.old table.now }
        ensures { (program : formula.Program) → IsFor program self.old → AreAtHomes program table.now.live → Opens program self.old table.now self.new }
    {
        stored_values_tell_what_they_stand_for();
        let facts = table.facts();
        let fact = facts[facts.len() - 1];
        self.cursors.came(fact);
        self.cursors.open_instances_lead();
    }

    /// Facts of the table went, and these homes changed. It takes no memory.
    pub fn changed(&mut self, table: &Table, homes: &[HomeNo])
        requires { IsLeft self.old table.now }
        ensures { (program : formula.Program) → IsFor program self.old → Reopens program self.old homes.now table.now self.new }
    {
        stored_values_tell_what_they_stand_for();
        self.cursors.open_instances_lead();
        self.cursors.changed(table.facts(), homes);
        self.cursors.open_instances_lead();
    }
}
