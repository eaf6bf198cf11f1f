ghost use Rattle.std.specs.Prelude.{◌≡◌, ◌+◌, ◌<◌, ◌≤◌, [], length, None, IfOk};
ghost use Rattle.fact_table.specs.inside.FactIds.{FactIds as Seen, Puts, id_in, key_of};

use std::alloc::{AllocError, Global};
use std::collections::HashMap;
use std::marker::Model;
use thr_base::{Fact, FactId};

/// The ids of live facts, by what they say.
#[derive(Drop)]
pub(crate) struct FactIds {
    room: u32,
    map: HashMap<(u32, u128), FactId>,
}

impl Model for FactIds {
    ghost use Rattle.std.specs.Prelude.{◌+◌, ◌≤◌, length};
    ghost use Rattle.std.specs.HashMap.{spare};
    ghost use Rattle.fact_table.specs.inside.FactIds.{FactIds as Seen};

    ghost Value = { Seen };

    ghost view = { λ inside. record {
      room = inside.room;
      entries = inside.map.entries;
    } };

    ghost invariant = { λ inside. inside.room ≤ length inside.map.entries + spare inside.map };
}

impl FactIds {
    pub(crate) fn new(alloc: Global, room: u32) -> Result<FactIds, AllocError>
        ensures { IfOk result (λ made. made ≡ record { room = room; entries = [] }) }
    {
        let map = HashMap::with_capacity(alloc, room as usize)?;
        Ok(FactIds { room, map })
    }

    pub(crate) fn get(&self, fact: Fact) -> Option<FactId>
        ensures { result ≡ id_in self.now (key_of fact) }
    {
        self.map.get(&(fact.home.0, fact.held)).copied()
    }

    /// It takes no memory.
    pub(crate) fn put(&mut self, fact: Fact, id: FactId)
        requires room { length self.old.entries < self.old.room }
        requires absent { id_in self.old (key_of fact) ≡ None }
        ensures { Puts self.old (key_of fact) id self.new }
    {
        let Ok(_old) = self.map.insert((fact.home.0, fact.held), id) else {
            unreachable!()
        };
    }

    pub(crate) fn clear(&mut self)
        ensures { self.new ≡ record self.old { entries = [] } }
    {
        self.map.clear();
    }
}
