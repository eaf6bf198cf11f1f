ghost use Rattle.std.specs.Prelude.{◌≡◌, IfOk, true};
ghost use Rattle.core_steps.specs.Course.{opening_of, state_of};
ghost use Rattle.core_steps.specs.State.{Task};
ghost use Rattle.core_steps.specs.Withdrawn.{has_id};
ghost use Rattle.core_steps.specs.inside.Premises.{ArePremisesOf, ArePremisesLive, IsPremiseOf, IsTaskJob};
ghost use Rattle.core_steps.specs.inside.Taking.{IsNextOf};

use crate::stored_core::Core;
use horn_rules::{Job, Premise};
use pending_instances::Next;
use std::alloc::AllocError;
use std::sync::Arc;
use thr_base::{Epoch, FactId, Instance};

impl<'p> Core<'p> {
    /// The job of what is next, for a worker.
    pub(crate) fn job_of(&self, w: u32, next: Next) -> Result<Job<'p>, AllocError>
        requires { (task : Task) × IsNextOf (opening_of self.now) (state_of self.now) next task }
        ensures { IfOk result (IsTaskJob (opening_of self.now) (state_of self.now) w next) }
    {
        let (first, second) = self.premises_of(next.instance)?;
        let place = next.home.0 as usize - 1;
        let target = Arc::try_clone(&self.lists[place])?;
        Ok(Job {
            program: self.program,
            worker: w,
            instance: next.instance,
            home: next.home,
            epoch: Epoch(self.epochs[place]),
            first,
            second,
            target,
        })
    }

    /// The premises that an instance names.
    fn premises_of(
        &self,
        instance: Instance,
    ) -> Result<(Option<Premise>, Option<Premise>), AllocError>
        requires { ArePremisesLive (state_of self.now) instance }
        ensures { IfOk result (λ premises. ArePremisesOf (opening_of self.now) (state_of self.now) instance premises.0 premises.1) }
    {
        match instance {
            Instance::Init(_) => Ok((None, None)),
            Instance::Own(f, _) => Ok((Some(self.premise(f)?), None)),
            Instance::Guar(f, _) => Ok((Some(self.premise(f)?), None)),
            Instance::Env(f, t) => Ok((Some(self.premise(f)?), Some(self.premise(t)?))),
            Instance::Inter(f, g, _) => Ok((Some(self.premise(f)?), Some(self.premise(g)?))),
        }
    }

    /// A live fact as a premise.
    fn premise(&self, id: FactId) -> Result<Premise, AllocError>
        requires { has_id (state_of self.now).live id.0 ≡ true }
        ensures { IfOk result (IsPremiseOf (opening_of self.now) (state_of self.now) id) }
    {
        let _facts = self.table.facts(); // its contract says at which homes facts stand
        let _count = self.sets.count(); // and this one's that lists are short
        let Some((fact, _)) = self.table.kept(id) else {
            unreachable!()
        };
        let set = Arc::try_clone(&self.lists[fact.home.0 as usize - 1])?;
        Ok(Premise { id, fact, set })
    }
}
