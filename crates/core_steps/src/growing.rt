ghost use Rattle.std.specs.Prelude.{◌≡◌, [], IfOk};
ghost use Rattle.std.specs.List.{AllByRecursion};
ghost use Rattle.predicate_sets.specs.Sets.{HasHome};
ghost use Rattle.derivation_tree.specs.Kept.{predicates_of_stored};
ghost use Rattle.core_steps.specs.Course.{state_of};
ghost use Rattle.core_steps.specs.Readers.{IsListsOf};
ghost use Rattle.core_steps.specs.inside.Changing.{Grows, GrowsBy, HasItsNumber};

use crate::stored_core::Core;
use lin_rows::Atom;
use predicate_sets::{AddStop, Added, Sets};
use std::alloc::{AllocError, Global};
use thr_base::HomeNo;

/// What predicates come to: the lists of all homes with those that are new, and these in their order; or the first home that would get
/// too many.
#[derive(Drop)]
pub(crate) enum Growth {
    New(Sets, Vec<(HomeNo, Atom)>),
    Full(HomeNo),
}

impl<'p> Core<'p> {
    /// Puts predicates into lists, and those that are new behind one another. It says which home is the first that would get too many.
    pub(crate) fn grow(
        &self,
        alloc: Global,
        sets: &mut Sets,
        new: &mut Vec<(HomeNo, Atom)>,
        predicates: &[(HomeNo, Atom)],
    ) -> Result<Option<HomeNo>, AllocError>
        requires lists { IsListsOf self.now.program (state_of self.now) sets.old }
        requires none { new.old.items ≡ [] }
        requires homes { AllByRecursion (HasItsNumber self.now.program) predicates.now }
        ensures { IfOk result (λ full. Grows self.now.program (state_of self.now) (predicates_of_stored self.now.program predicates.now) full new.new.items sets.new) }
    {
        for pair in predicates {
            let full = grow_by(alloc, sets, new, pair)?;
            if full {
                return Ok(Some(pair.0));
            }
        }
        Ok(None)
    }
}

/// Puts a predicate into its home's list, and behind those that are new where it is. It says whether the list is full.
fn grow_by(
    alloc: Global,
    sets: &mut Sets,
    new: &mut Vec<(HomeNo, Atom)>,
    pair: &(HomeNo, Atom),
) -> Result<bool, AllocError>
    requires { HasHome sets.old pair.now.0.0 }
    ensures { IfOk result (λ full. GrowsBy sets.old new.old.items pair.now full sets.new new.new.items) }
{
    let atom = pair.1.try_clone(alloc)?;
    let other = pair.1.try_clone(alloc)?;
    let added = sets.add(pair.0, atom);
    match added {
        Ok(added) => match added {
            Added::New(_) => {
                new.push((pair.0, other))?;
                Ok(false)
            }
            Added::Known(_) => Ok(false),
        },
        Err(stop) => match stop {
            AddStop::Full => Ok(true),
            AddStop::Memory => Err(AllocError),
        },
    }
}
