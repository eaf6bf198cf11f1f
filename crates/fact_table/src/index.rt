ghost use Rattle.std.specs.Prelude.{◌≡◌, ◌-◌, ◌<◌, ◌≤◌, [], ◌∷◌, ◌++◌, length, None, IfOk};
ghost use Rattle.std.specs.List.{AllByRecursion};
ghost use Rattle.std.specs.Vec.{vec_capacity};
ghost use Rattle.fact_table.specs.Table.{AreDistinct, HasHome};
ghost use Rattle.fact_table.specs.inside.FactIds.{id_in, key_of};
ghost use Rattle.fact_table.specs.inside.Index.{Adds, AreRooms, HasRoom, IsAsLarge, IsIndexOf};

use crate::fact_ids::FactIds;
use crate::home_ids::HomeIds;
use crate::live_fact::LiveFact;
use std::alloc::{AllocError, Global};
use thr_base::{Fact, FactId};

/// How live facts are found: by id, by what they say, and by home.
#[derive(Drop)]
pub(crate) struct Index {
    pub(crate) ids: Vec<FactId>,
    pub(crate) by_fact: FactIds,
    pub(crate) by_home: HomeIds,
}

impl Index {
    pub(crate) fn new(alloc: Global, homes: u32, limit: u32) -> Result<Index, AllocError>
        ensures index { IfOk result (IsIndexOf []) }
        ensures room { IfOk result (λ index. index.by_fact.room ≡ limit) }
        ensures homes { IfOk result (λ index. length index.by_home.lists ≡ homes) }
    {
        let ids = Vec::with_capacity(alloc, limit as usize)?;
        let by_fact = FactIds::new(alloc, limit)?;
        let by_home = HomeIds::new(alloc, homes, limit)?;
        Ok(Index {
            ids,
            by_fact,
            by_home,
        })
    }

    /// It takes no memory.
    pub(crate) fn add(&mut self, id: FactId, fact: Fact)
        requires room { HasRoom self.old }
        requires home { HasHome (length self.old.by_home.lists) fact.home.0 }
        requires absent { id_in self.old.by_fact (key_of fact) ≡ None }
        ensures { Adds self.old id fact self.new }
    {
        push_within(&mut self.ids, id);
        self.by_fact.put(fact, id);
        self.by_home.push(fact.home, id);
    }

    fn clear(&mut self)
        requires { AreRooms self.old }
        ensures index { IsIndexOf [] self.new }
        ensures size { IsAsLarge self.new self.old }
    {
        self.ids.clear();
        self.by_fact.clear();
        self.by_home.clear();
    }
}

/// Makes the index that of these facts.
pub(crate) fn fill(index: &mut Index, facts: &[LiveFact])
    requires rooms { AreRooms index.old }
    requires few { length facts.now ≤ index.old.by_fact.room }
    requires homes { AllByRecursion (λ f. HasHome (length index.old.by_home.lists) f.fact.home.0) facts.now }
    requires distinct { AreDistinct facts.now }
    ensures index { IsIndexOf facts.now index.new }
    ensures size { IsAsLarge index.new index.old }
{
    index.clear();
    for fact in facts {
        index.add(fact.id, fact.fact);
    }
}

/// Puts an element at the end where there is room.
pub(crate) fn push_within<T: Copy + Drop>(items: &mut Vec<T>, item: T)
    requires { length items.old.items < vec_capacity items.old }
    ensures items { items.new.items ≡ items.old.items ++ item ∷ [] }
    ensures capacity { vec_capacity items.old ≤ vec_capacity items.new }
{
    if items.push(item).is_err() {
        unreachable!()
    }
}
