ghost use Rattle.std.specs.Prelude.{◌≡◌};
ghost use Rattle.derivation_tree.specs.Kept.{IsLesson, predicates_of_stored};

use crate::kept::Kept;
use crate::scope::Scope;
use lin_rows::Atom;
use std::marker::Model;
use thr_base::HomeNo;

/// What the tree of a claimed fact teaches: the predicates of a certificate that refutes a system of it, in the order of the nodes.
#[derive(Drop)]
pub struct Refutation<'p> {
    kept: Kept<'p>,
    scope: Scope,
    predicates: Vec<(HomeNo, Atom)>,
}

impl<'p> Model for Refutation<'p> {
    ghost use Rattle.derivation_tree.specs.Kept.{Lesson, IsLesson, predicates_of_stored};

    ghost Value = { Lesson };

    ghost view = { λ inside. record { kept = inside.kept; scope = inside.scope; predicates = predicates_of_stored inside.kept.program inside.predicates.items } };

    ghost invariant = { λ inside. IsLesson (record { kept = inside.kept; scope = inside.scope; predicates = predicates_of_stored inside.kept.program inside.predicates.items }) };
}

impl<'p> Refutation<'p> {
    pub fn new(kept: Kept<'p>, scope: Scope, predicates: Vec<(HomeNo, Atom)>) -> Refutation<'p>
        requires { IsLesson (record { kept = kept; scope = scope; predicates = predicates_of_stored kept.program predicates.items }) }
        ensures { result ≡ record { kept = kept.entry; scope = scope; predicates = predicates_of_stored kept.entry.program predicates.items } }
    {
        Refutation {
            kept,
            scope,
            predicates,
        }
    }

    pub fn kept(&self) -> &Kept<'p>
        ensures kept { result.now ≡ self.now.kept }
        ensures lesson { IsLesson self.now }
    {
        &self.kept
    }

    pub fn scope(&self) -> Scope
        ensures { result ≡ self.now.scope }
    {
        self.scope
    }

    pub fn predicates(&self) -> &[(HomeNo, Atom)]
        ensures predicates { predicates_of_stored self.now.kept.program result.now ≡ self.now.predicates }
        ensures lesson { IsLesson self.now }
    {
        self.predicates.as_slice()
    }
}
