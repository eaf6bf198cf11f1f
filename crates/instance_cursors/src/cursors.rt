ghost use Rattle.std.specs.Prelude.{◌≡◌, ◌+◌, ◌<◌, Bool, false, length, filter, map, IfOk, IfErr, MatchOption};
ghost use Rattle.std.specs.List.{Contains};
ghost use Rattle.thr_base.specs.Held.{Rise};
ghost use Rattle.thr_base.specs.declared.names.Instance.TheVariants.{Init};
ghost use Rattle.thr_base.specs.declared.names.ThreadNo.{ThreadNo as Thread};
ghost use Rattle.fact_table.specs.declared.live_fact.LiveFact.{LiveFact as Live};
ghost use Rattle.instance_cursors.specs.Waiting as specs;
ghost use Rattle.instance_cursors.specs.declared.start.Start.{Start as StartOf};
ghost use Rattle.instance_cursors.specs.inside.Chosen as chosen;

use crate::choosing::{Next, best_head, first_start, next_head, next_start, open_start};
use crate::early::Early;
use crate::finding::{find, home_ahead, take_early};
use crate::heads::{find_all, head_of, is_head_at, look_at, move_on};
use crate::key::Head;
use crate::layout::Layout;
use crate::moving::{
    at_beginning, early_back, edge_cursors, keep_live, no_heads, push_cursor, push_fact, push_head,
    set_cursors_back, set_facts, set_starts_back, take_thread,
};
use crate::start::Start;
use crate::turns::{Cursor, Series};
use fact_table::LiveFact;
use std::alloc::{AllocError, Global};
use std::marker::Model;
use thr_base::{HomeNo, Instance, ThreadNo};

/// The instances that are open: those that lead from live facts and were not taken. Each thread has a start, each edge two cursors and
/// each live fact one, with its head beside it.
#[derive(Drop)]
pub struct Cursors {
    layout: Layout,
    room: u32,
    given: u32,
    facts: Vec<LiveFact>,
    starts: Vec<Start>,
    cursors: Vec<Cursor>,
    heads: Vec<Option<Head>>,
    early: Vec<Early>,
}

impl Model for Cursors {
    ghost use Rattle.instance_cursors.specs.Waiting.{Waiting};

    ghost Value = { Waiting };

    ghost use Rattle.instance_cursors.specs.inside.Stored.{IsStored, seen};

    ghost view = { seen };

    ghost invariant = { IsStored };
}

impl Cursors {
    /// Nothing is live yet, and no start is taken. It has room for so many facts.
    pub fn new(
        alloc: Global,
        layout: Layout,
        starts: Vec<Start>,
        facts: u32,
    ) -> Result<Cursors, AllocError>
        requires { (start : StartOf) → Contains starts.items start → start.taken ≡ false }
        ensures { IfOk result (specs.Begins layout starts.items facts) }
    {
        let mut cursors = edge_cursors(alloc, layout.edge_count())?;
        cursors.reserve(facts as usize)?;
        let mut heads = no_heads(alloc, cursors.len())?;
        heads.reserve(facts as usize)?;
        let live = Vec::with_capacity(alloc, facts as usize)?;
        find_all(&layout, &[], &live, &cursors, &mut heads);
        Ok(Cursors {
            layout,
            room: facts,
            given: 0,
            facts: live,
            starts,
            cursors,
            heads,
            early: Vec::new(alloc),
        })
    }

    /// What is open leads, and ids rise: what is always known, and no code.
    pub fn open_instances_lead(&self)
        ensures leads { specs.OpenLead self.now }
        ensures rise { Rise 0 (map (λ f. f.id.0) self.now.live) }
    {
        let _ = &self.given;
    }

    /// What may be taken next: what leads to homes of this thread before what leads to others, and else by the order of keys.
    pub fn choose(&self, thread: ThreadNo) -> Option<Next>
        ensures { MatchOption result (specs.NoneIsOpen self.now) (specs.IsNext self.now thread) }
    {
        match self.open_in(Some(thread)) {
            Some(next) => Some(next),
            None => self.open_in(None),
        }
    }

    /// The first that is open of a thread, or of all.
    fn open_in(&self, only: Option<ThreadNo>) -> Option<Next>
        ensures { MatchOption result (chosen.NoneIsWanted only self.now) (chosen.IsWanted only self.now) }
    {
        if let Some(place) = first_start(&self.layout, &self.starts, only) {
            return Some(next_start(&self.starts, place));
        }
        match best_head(&self.layout, &self.cursors, &self.heads, only) {
            Some(found) => Some(next_head(&self.layout, &self.cursors, found)),
            None => None,
        }
    }

    /// The home to which an instance leads, if it is open.
    pub fn home_if_open(&self, instance: Instance) -> Option<HomeNo>
        ensures { MatchOption result (specs.IsOpen self.now instance → ⊥) (specs.OpensTo self.now instance) }
    {
        match instance {
            Instance::Init(thread) => self.home_of_start(thread),
            _ => self.home_of_turn(instance),
        }
    }

    fn home_of_start(&self, thread: ThreadNo) -> Option<HomeNo>
        ensures { MatchOption result (specs.IsOpen self.now (Init thread) → ⊥) (specs.OpensTo self.now (Init thread)) }
    {
        open_start(&self.starts, thread)
    }

    fn home_of_turn(&self, instance: Instance) -> Option<HomeNo>
        requires { (thread : Thread) → Init thread ≡ instance → ⊥ }
        ensures { MatchOption result (specs.IsOpen self.now instance → ⊥) (specs.OpensTo self.now instance) }
    {
        match find(&self.layout, &self.facts, &self.cursors, instance) {
            Some(at) => home_ahead(&self.layout, &self.early, &self.cursors, at),
            None => None,
        }
    }

    /// An open instance is taken. Where this answers that there is no memory, nothing has changed.
    pub fn take(&mut self, instance: Instance) -> Result<(), AllocError>
        requires { specs.IsOpen self.old instance }
        ensures closes { IfOk result (λ _. specs.Closes self.old instance self.new) }
        ensures err { IfErr result (λ _. self.new ≡ self.old) }
    {
        match instance {
            Instance::Init(thread) => {
                self.start(thread);
                Ok(())
            }
            _ => self.take_turn(instance),
        }
    }

    fn start(&mut self, thread: ThreadNo)
        ensures { specs.Closes self.old (Init thread) self.new }
    {
        take_thread(&mut self.starts, thread);
    }

    /// An open instance is taken that is no start.
    fn take_turn(&mut self, instance: Instance) -> Result<(), AllocError>
        requires is_open { specs.IsOpen self.old instance }
        requires no_start { (thread : Thread) → Init thread ≡ instance → ⊥ }
        ensures closes { IfOk result (λ _. specs.Closes self.old instance self.new) }
        ensures err { IfErr result (λ _. self.new ≡ self.old) }
    {
        let Some(at) = find(&self.layout, &self.facts, &self.cursors, instance) else {
            unreachable!()
        };
        if is_head_at(&self.heads, at) {
            move_on(
                &self.layout,
                &self.early,
                &self.facts,
                &mut self.cursors,
                &mut self.heads,
                at,
            );
            Ok(())
        } else {
            take_early(&mut self.early, &self.cursors, at)
        }
    }

    /// A fact became live, by the next id. It takes no memory.
    pub fn came(&mut self, fact: LiveFact)
        requires room { length self.old.live < self.old.room }
        requires next { fact.id.0 ≡ self.old.given + 1 }
        ensures { specs.Opens self.old fact self.new }
    {
        let cursor = at_beginning(Series::Beside(fact.fact.home, fact.id));
        push_fact(&mut self.facts, fact);
        look_at(
            &self.layout,
            &self.early,
            &self.facts,
            fact,
            &self.cursors,
            &mut self.heads,
        );
        push_head(
            &mut self.heads,
            head_of(&self.layout, &self.early, &self.facts, cursor),
        );
        push_cursor(&mut self.cursors, cursor);
        self.given = fact.id.0;
    }

    /// Facts went, and these homes changed. It takes no memory.
    pub fn changed(&mut self, facts: &[LiveFact], homes: &[HomeNo])
        requires { (keep : Live → Bool) × (facts.now ≡ filter keep self.old.live) }
        ensures { specs.Reopens self.old facts.now homes.now self.new }
    {
        set_facts(&mut self.facts, facts);
        keep_live(&mut self.cursors, facts);
        set_cursors_back(&mut self.cursors, &self.layout, homes);
        set_starts_back(&mut self.starts, homes);
        early_back(&mut self.early, &self.layout, homes);
        find_all(
            &self.layout,
            &self.early,
            &self.facts,
            &self.cursors,
            &mut self.heads,
        );
    }
}
