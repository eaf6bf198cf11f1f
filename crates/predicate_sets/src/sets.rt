ghost use Rattle.std.specs.Prelude.{◌≡◌, ◌<◌, [], ◌∷◌, ◌++◌, length, replicate, IfOk};
ghost use Rattle.thr_base.specs.Limits.{most_predicates};
ghost use Rattle.predicate_sets.specs.HomeSet.{IsHomeSet, Lacks};
ghost use Rattle.predicate_sets.specs.Sets.{AreHomeSets, HasHome, set_at, with_set, IsAddAnswer};

use crate::home_set::{HomeSet, place_of};
use lin_rows::Atom;
use std::alloc::{AllocError, Global};
use std::marker::Model;
use std::sync::Arc;
use thr_base::{HomeNo, MOST_PREDICATES};

/// The predicates of all homes.
#[derive(Drop)]
pub struct Sets {
    homes: Vec<Arc<HomeSet>>,
}

impl Model for Sets {
    ghost use Rattle.std.specs.Prelude.{List, map};
    ghost use Rattle.lin_rows.specs.Row.{Row};

    ghost Value = { List (List Row) };

    ghost use Rattle.predicate_sets.specs.Sets.{AreHomeSets};

    ghost view = { λ inside. map (λ set. set.value) inside.homes.items };

    ghost invariant = { λ inside. AreHomeSets (map (λ set. set.value) inside.homes.items) };
}

/// The position of an atom that was added, and whether it is new.
#[derive(Clone, Copy, Debug, PartialEq, Eq)]
pub enum Added {
    New(u32),
    Known(u32),
}

#[derive(Clone, Copy, Debug, PartialEq, Eq)]
pub enum AddStop {
    Full,
    Memory,
}

impl Sets {
    pub fn new(alloc: Global, homes: u32) -> Result<Sets, AllocError>
        ensures { IfOk result (λ sets. sets ≡ replicate homes []) }
    {
        let mut sets = Vec::new(alloc);
        for _home in 0..homes {
            sets.push(Arc::new(alloc, HomeSet::new(alloc))?)?;
        }
        Ok(Sets { homes: sets })
    }

    /// The number of homes.
    pub fn count(&self) -> usize
        ensures count { result ≡ length self.now }
        ensures home_sets { AreHomeSets self.now }
    {
        self.homes.len()
    }

    /// Appends an atom to a home's list. A list that was handed out stays as it is: the home gets a new one.
    pub fn add(&mut self, home: HomeNo, atom: Atom) -> Result<Added, AddStop>
        requires { HasHome self.old home.0 }
        ensures { IsAddAnswer self.old home.0 atom result self.new }
    {
        let place = home.0 as usize - 1;
        let set: &HomeSet = &self.homes[place];
        let count = set.atoms().len();
        if let Some(known) = place_of(set.atoms(), &atom) {
            return Ok(Added::Known(known as u32 + 1));
        }
        if count == MOST_PREDICATES as usize {
            return Err(AddStop::Full);
        }
        let alloc = *self.homes.allocator();
        let Ok(longer) = grown_set(alloc, set, atom) else {
            return Err(AddStop::Memory);
        };
        self.homes[place] = longer;
        Ok(Added::New(count as u32 + 1))
    }

    /// A home's list, shared. Want of memory comes where the list has as many owners as can be counted.
    pub fn at(&self, home: HomeNo) -> Result<Arc<HomeSet>, AllocError>
        requires { HasHome self.now home.0 }
        ensures set { IfOk result (λ set. set.value ≡ set_at self.now home.0) }
        ensures home_set { IsHomeSet (set_at self.now home.0) }
    {
        Arc::try_clone(&self.homes[home.0 as usize - 1])
    }

    /// Makes a list that of a home.
    pub fn put(&mut self, home: HomeNo, set: Arc<HomeSet>)
        requires { HasHome self.old home.0 }
        ensures { self.new ≡ with_set self.old home.0 set.value }
    {
        let _ = set.atoms(); // its contract says that they are few, and no two equal
        self.homes[home.0 as usize - 1] = set;
    }
}

fn grown_set(alloc: Global, set: &HomeSet, atom: Atom) -> Result<Arc<HomeSet>, AllocError>
    requires room { length set.now < most_predicates }
    requires lacks { Lacks set.now atom }
    ensures { IfOk result (λ grown. grown.value ≡ set.now ++ atom ∷ []) }
{
    let longer = set.with(alloc, atom)?;
    Ok(Arc::new(alloc, longer)?)
}
