ghost use Rattle.std.specs.Prelude.{◌≡◌};
ghost use Rattle.derivation_tree.specs.Kept.{IsKept, KeptTree, kept_facts_of};

use std::marker::Model;
use thr_base::{Fact, FactId, Instance};
use transition_formula::Program;

/// A failing fact that a worker has claimed, and all facts below it, by rising id, each with the instance that gave it.
#[derive(Drop)]
pub struct Kept<'p> {
    program: &'p Program,
    worker: u32,
    root: FactId,
    facts: Vec<(FactId, Fact, Instance)>,
}

impl<'p> Model for Kept<'p> {
    ghost use Rattle.derivation_tree.specs.Kept.{KeptTree, IsKept, kept_facts_of};

    ghost Value = { KeptTree };

    ghost view = { λ inside. record { program = inside.program.now; worker = inside.worker; root = inside.root.0; facts = kept_facts_of inside.program.now inside.facts.items } };

    ghost invariant = { λ inside. IsKept (record { program = inside.program.now; worker = inside.worker; root = inside.root.0; facts = kept_facts_of inside.program.now inside.facts.items }) };
}

impl<'p> Kept<'p> {
    /// The facts stand by rising id.
    pub fn new(
        program: &'p Program,
        worker: u32,
        root: FactId,
        facts: Vec<(FactId, Fact, Instance)>,
    ) -> Kept<'p>
        requires { IsKept (record { program = program.now; worker = worker; root = root.0; facts = kept_facts_of program.now facts.items }) }
        ensures { result ≡ record { program = program.now; worker = worker; root = root.0; facts = kept_facts_of program.now facts.items } }
    {
        Kept {
            program,
            worker,
            root,
            facts,
        }
    }

    pub fn program(&self) -> &'p Program
        ensures program { result.now ≡ self.now.program }
        ensures kept { IsKept self.now }
    {
        self.program
    }

    /// The worker that has claimed the root.
    pub fn worker(&self) -> u32
        ensures { result ≡ self.now.worker }
    {
        self.worker
    }

    pub fn root(&self) -> FactId
        ensures { result.0 ≡ self.now.root }
    {
        self.root
    }

    pub fn facts(&self) -> &[(FactId, Fact, Instance)]
        ensures facts { kept_facts_of self.now.program result.now ≡ self.now.facts }
        ensures kept { IsKept self.now }
    {
        self.facts.as_slice()
    }
}
