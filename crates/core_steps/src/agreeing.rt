ghost use Rattle.std.specs.Prelude.{◌≡◌, ◌↔◌, Some, IsSome, IsTrue};
ghost use Rattle.transition_formula.specs.Program.{at_number};
ghost use Rattle.horn_rules.specs.Home.{homes};
ghost use Rattle.horn_rules.specs.Job.{IsJob, IsPremise};
ghost use Rattle.horn_rules.specs.Stored.{home_numbered};
ghost use Rattle.core_steps.specs.Course.{opening_of, state_of};
ghost use Rattle.core_steps.specs.Jobs.{JobAgrees, PremiseAgrees};
ghost use Rattle.core_steps.specs.inside.Agreeing.{PremiseFits};

use crate::stored_core::Core;
use horn_rules::{Job, Premise};
use lin_rows::Atom;
use predicate_sets::{HomeSet, is_same};
use thr_base::{Fact, HomeNo};

impl<'p> Core<'p> {
    /// Whether a job's premises are live, and all its predicates those that homes have.
    pub(crate) fn agrees(&self, job: &Job<'p>) -> bool
        requires { IsJob self.now.program job.now }
        ensures { IsTrue result ↔ JobAgrees (opening_of self.now) (state_of self.now) job.now }
    {
        if !self.premise_agrees(&job.first) {
            return false;
        }
        if !self.premise_agrees(&job.second) {
            return false;
        }
        self.is_list_of(job.home, &job.target)
    }

    fn premise_agrees(&self, premise: &Option<Premise>) -> bool
        requires { PremiseFits self.now.program premise.now }
        ensures { IsTrue result ↔ PremiseAgrees (opening_of self.now) (state_of self.now) premise.now }
    {
        match premise {
            None => true,
            Some(premise) => self.is_premise(premise),
        }
    }

    fn is_premise(&self, premise: &Premise) -> bool
        requires { IsPremise self.now.program premise.now }
        ensures { IsTrue result ↔ PremiseAgrees (opening_of self.now) (state_of self.now) (Some premise.now) }
    {
        let _atoms = premise.set.atoms(); // its contract says that they are few
        match self.table.kept(premise.id) {
            None => false,
            Some((fact, _)) => {
                same_fact(fact, premise.fact) && self.is_list_of(premise.fact.home, &premise.set)
            }
        }
    }

    /// Whether a home has these predicates.
    fn is_list_of(&self, home: HomeNo, set: &HomeSet) -> bool
        requires { IsSome (at_number (homes self.now.program) home.0) }
        ensures { IsTrue result ↔ set.now ≡ (state_of self.now).sets (home_numbered self.now.program home.0) }
    {
        same_atoms(set.atoms(), self.lists[home.0 as usize - 1].atoms())
    }
}

fn same_fact(one: Fact, other: Fact) -> bool
    ensures { IsTrue result ↔ one ≡ other }
{
    one == other
}

fn same_atoms(one: &[Atom], other: &[Atom]) -> bool
    ensures { IsTrue result ↔ one.now ≡ other.now }
{
    if one.len() != other.len() {
        return false;
    }
    for (place, atom) in one.iter().enumerate() {
        if !is_same(atom, &other[place]) {
            return false;
        }
    }
    true
}
