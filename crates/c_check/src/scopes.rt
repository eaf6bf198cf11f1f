//! The scopes that are open at a place of a text, and what a name stands for there.

ghost use Rattle.std.specs.Prelude.{◌≡◌, [], drop, reverse, OnOk};
ghost use Rattle.c_check.specs.Broken.{is_in_innermost};
ghost use Rattle.c_check.specs.Scope.{declare, in_scope, meaning_of, open_scope, with_name};

use crate::meaning::Meaning;
use c_tree::Name;
use indexmap::IndexMap;
use std::alloc::{AllocError, Global};
use std::marker::Model;

/// The names of one scope, each once.
#[derive(Drop)]
struct Scope {
    names: IndexMap<Vec<u8>, Meaning>,
}

impl Model for Scope {
    ghost use Rattle.std.specs.Prelude.{List, map};
    ghost use Rattle.c_check.specs.Scope.{Binding};

    ghost Value = { List Binding };

    ghost view = { λ s. map (λ e. record { name = e.0.items; stands_for = e.1 }) s.names.entries };
}

impl Scope {
    fn new(alloc: Global) -> Scope
        ensures { result ≡ [] }
    {
        Scope {
            names: IndexMap::new(alloc),
        }
    }

    fn meaning(&self, name: &[u8]) -> Option<Meaning>
        ensures { result ≡ in_scope name.now self.now }
    {
        self.names.get(name).copied()
    }

    fn declare(&mut self, alloc: Global, name: &[u8], meaning: Meaning) -> Result<(), AllocError>
        ensures { OnOk result (self.new ≡ with_name name.now meaning self.old) }
    {
        if !self.names.contains_key(name) {
            self.names.insert(Vec::from_slice(alloc, name)?, meaning)?;
        }
        Ok(())
    }
}

/// What a name stands for, by scopes of which the innermost is the last one.
fn meaning_in(scopes: &[Scope], name: &[u8]) -> Option<Meaning>
    ensures { result ≡ meaning_of name.now (reverse scopes.now) }
{
    let mut found = None;
    for scope in scopes {
        // An inner scope hides those around it.
        found = scope.meaning(name).or(found);
    }
    found
}

/// The open scopes, the innermost first.
#[derive(Drop)]
pub struct Scopes {
    // The innermost is the last one.
    scopes: Vec<Scope>,
    alloc: Global,
}

impl Model for Scopes {
    ghost use Rattle.std.specs.Prelude.{List, reverse};
    ghost use Rattle.c_check.specs.Scope.{Binding};

    ghost Value = { List (List Binding) };

    ghost view = { λ s. reverse s.scopes.items };
}

impl Scopes {
    pub fn new(alloc: Global) -> Scopes
        ensures { result ≡ [] }
    {
        Scopes {
            scopes: Vec::new(alloc),
            alloc,
        }
    }

    pub fn open(&mut self) -> Result<(), AllocError>
        ensures { OnOk result (self.new ≡ open_scope self.old) }
    {
        self.scopes.push(Scope::new(self.alloc))?;
        Ok(())
    }

    pub fn close(&mut self)
        ensures { self.new ≡ drop 1 self.old }
    {
        let _ = self.scopes.pop();
    }

    pub fn declare(
        &mut self,
        alloc: Global,
        name: &Name,
        meaning: Meaning,
    ) -> Result<(), AllocError>
        ensures { OnOk result (self.new ≡ declare name.now meaning self.old) }
    {
        if let Some(scope) = self.scopes.last_mut() {
            scope.declare(alloc, name.text.as_slice(), meaning)?;
        }
        Ok(())
    }

    pub fn meaning(&self, name: &Name) -> Option<Meaning>
        ensures { result ≡ meaning_of name.now.text self.now }
    {
        meaning_in(&self.scopes, name.text.as_slice())
    }

    /// Whether the innermost scope has the name.
    pub fn has(&self, name: &Name) -> bool
        ensures { result ≡ is_in_innermost name.now.text self.now }
    {
        match self.scopes.last() {
            Some(scope) => scope.meaning(name.text.as_slice()).is_some(),
            None => false,
        }
    }
}
