ghost use Rattle.std.specs.Prelude.{◌≡◌, ◌↔◌, ◌<◌, ◌∷◌, [], ◌++◌, length, slice_get, IfOk, IsTrue, MatchOption};
ghost use Rattle.thr_base.specs.Limits.{most_predicates};
ghost use Rattle.predicate_sets.specs.HomeSet.{IsHomeSet, Lacks, StandsAt};

use lin_rows::Atom;
use std::alloc::{AllocError, Global};
use std::marker::Model;

/// The predicates of a home, at most 128 and no two equal. What a fact holds of them is told by position, from 1.
#[derive(Debug, Drop)]
pub struct HomeSet {
    atoms: Vec<Atom>,
}

impl Model for HomeSet {
    ghost use Rattle.std.specs.Prelude.{List};
    ghost use Rattle.lin_rows.specs.Row.{Row};
    ghost use Rattle.predicate_sets.specs.HomeSet.{IsHomeSet};

    ghost Value = { List Row };

    ghost view = { λ inside. inside.atoms.items };

    ghost invariant = { λ inside. IsHomeSet inside.atoms.items };
}

impl HomeSet {
    pub(crate) fn new(alloc: Global) -> HomeSet
        ensures { result ≡ [] }
    {
        HomeSet {
            atoms: Vec::new(alloc),
        }
    }

    pub fn atoms(&self) -> &[Atom]
        ensures atoms { result.now ≡ self.now }
        ensures home_set { IsHomeSet self.now }
    {
        self.atoms.as_slice()
    }

    /// The position of an atom, from 1, where it stands in the list.
    pub fn position(&self, atom: &Atom) -> Option<u32>
        ensures { MatchOption result (Lacks self.now atom.now) (StandsAt self.now atom.now) }
    {
        let place = place_of(self.atoms(), atom)?;
        Some(place as u32 + 1)
    }

    /// A list of its own, with one more atom at its end.
    #[tactic(auto, using(crate::proofs::Atoms::home_set_grows))]
    pub(crate) fn with(&self, alloc: Global, atom: Atom) -> Result<HomeSet, AllocError>
        requires room { length self.now < most_predicates }
        requires lacks { Lacks self.now atom }
        ensures { IfOk result (λ set. set ≡ self.now ++ atom ∷ []) }
    {
        let mut atoms = copies_of(alloc, self.atoms())?;
        atoms.push(atom)?;
        Ok(HomeSet { atoms })
    }
}

/// The place of an atom in a list, from 0.
#[tactic(auto, using(crate::proofs::Atoms::lacks_more))]
pub(crate) fn place_of(atoms: &[Atom], atom: &Atom) -> Option<usize>
    ensures { MatchOption result (Lacks atoms.now atom.now) (λ place. slice_get atoms.now place ≡ Some atom.now) }
{
    for (place, other) in atoms.iter().enumerate() {
        if is_same(other, atom) {
            return Some(place);
        }
    }
    None
}

/// Whether two atoms are the same.
pub fn is_same(one: &Atom, other: &Atom) -> bool
    ensures { IsTrue result ↔ one.now ≡ other.now }
{
    one.bound() == other.bound() && one.coefficients() == other.coefficients()
}

fn copies_of(alloc: Global, atoms: &[Atom]) -> Result<Vec<Atom>, AllocError>
    ensures { IfOk result (λ copies. copies.items ≡ atoms.now) }
{
    let mut copies = Vec::new(alloc);
    for atom in atoms {
        copies.push(atom.try_clone(alloc)?)?;
    }
    Ok(copies)
}
