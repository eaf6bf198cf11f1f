ghost use Rattle.std.specs.Prelude.{◌≡◌, ◌↔◌, IsTrue};
ghost use Rattle.std.specs.List.{AllByRecursion, Contains};
ghost use Rattle.horn_rules.specs.Laws.{IsWord};
ghost use Rattle.horn_rules.specs.Stored.{instance_of};
ghost use Rattle.derivation_tree.specs.Kept.{kept_fact_of};
ghost use Rattle.core_steps.specs.Claims.{KeptAgrees};
ghost use Rattle.core_steps.specs.Course.{state_of};
ghost use Rattle.core_steps.specs.inside.Standing.{names, names_any, are_all_below};

use crate::stored_core::Core;
use derivation_tree::Kept;
use thr_base::{Fact, FactId, Instance};

impl<'p> Core<'p> {
    /// Whether a claim keeps exactly the live facts below its root.
    pub(crate) fn agrees_with(&self, kept: &Kept<'p>) -> bool
        requires { kept.now.program ≡ self.now.program }
        ensures { IsTrue result ↔ KeptAgrees (state_of self.now) kept.now }
    {
        let _program = &self.program; // what every core keeps is known from here on
        let facts = kept.facts();
        if !self.are_all_kept(facts) {
            return false;
        }
        are_all_below(kept.root(), facts)
    }

    /// Whether each of the facts is live, with this instance.
    fn are_all_kept(&self, facts: &[(FactId, Fact, Instance)]) -> bool
        ensures { IsTrue result ↔ AllByRecursion (λ f. Contains (state_of self.now).live (kept_fact_of self.now.program f)) facts.now }
    {
        for fact in facts {
            if !self.is_kept(fact) {
                return false;
            }
        }
        true
    }

    /// Whether the fact is live, with this instance.
    fn is_kept(&self, kept: &(FactId, Fact, Instance)) -> bool
        ensures { IsTrue result ↔ Contains (state_of self.now).live (kept_fact_of self.now.program kept.now) }
    {
        match self.table.kept(kept.0) {
            None => false,
            Some((fact, instance)) => is_same(fact, kept.1, instance, kept.2),
        }
    }
}

fn is_same(fact: Fact, other_fact: Fact, instance: Instance, other_instance: Instance) -> bool
    ensures same { IsTrue result ↔ (fact ≡ other_fact) × (instance ≡ other_instance) }
    ensures word { IsWord other_fact }
{
    fact == other_fact && instance == other_instance
}

/// Whether each of the facts is the root, or a premise of another one.
fn are_all_below(root: FactId, facts: &[(FactId, Fact, Instance)]) -> bool
    ensures { result ≡ are_all_below root.0 facts.now }
{
    facts
        .iter()
        .all(|f| f.0.0 == root.0 || names_any(facts, f.0))
}

/// Whether one of the facts has a premise of this id.
pub(crate) fn names_any(facts: &[(FactId, Fact, Instance)], id: FactId) -> bool
    ensures { result ≡ names_any facts.now id.0 }
{
    facts.iter().any(|f| names_id(f.2, id))
}

/// Whether the instance has a premise of this id.
fn names_id(instance: Instance, id: FactId) -> bool
    ensures { result ≡ names (instance_of instance) id.0 }
{
    match instance {
        Instance::Init(_) => false,
        Instance::Own(f, _) => f.0 == id.0,
        Instance::Guar(f, _) => f.0 == id.0,
        Instance::Env(f, t) => f.0 == id.0 || t.0 == id.0,
        Instance::Inter(f, g, _) => f.0 == id.0 || g.0 == id.0,
    }
}
