//! The edges of reads into temporaries.

ghost use Rattle.std.specs.Prelude.{◌≡◌, ◌+◌, ◌<◌, ◌^◌, ℕ, [], ◌∷◌, length, IfOk};
ghost use Rattle.c_check.specs.declared.meaning.Variable.TheVariants as variable;
ghost use Rattle.c_check.specs.Items.{reads};
ghost use Rattle.c_check.specs.Plan.{Arithmetic};
ghost use Rattle.thread_cfg.specs.Action as action;
ghost use Rattle.thread_cfg.specs.Path as path;
ghost use Rattle.thread_cfg.specs.inside.Adds.{AddsReads, AreWithin};
ghost use Rattle.thread_cfg.specs.inside.Sizes.{shared_of, shared_variables};

use crate::event::{Event, Expression};
use crate::running::Running;
use crate::thread::Found;
use c_check::{Operation, Variable};
use std::alloc::{AllocError, Global};
use thr_base::Loc;

/// Where the next read is, and the number of the temporary that it sets.
#[derive(Clone, Copy)]
pub(crate) struct Reading {
    pub(crate) at: Loc,
    pub(crate) temporary: usize,
}

impl Found {
    /// The edge of a read of a variable that all threads share.
    fn add_read(
        &mut self,
        alloc: Global,
        running: &Running,
        reading: Reading,
        from: u32,
        number: usize,
    ) -> Result<Reading, AllocError>
        requires room { reading.at.0 + 1 < 2 ^ 32 }
        requires within { AreWithin running.now (action.read_actions from (reads reading.temporary (variable.Shared number ∷ [])) reading.at.0) }
        ensures { IfOk result (λ next. AddsReads running.now from self.old self.new reading next (variable.Shared number ∷ [])) }
    {
        let next = Reading {
            at: Loc(reading.at.0 + 1),
            temporary: reading.temporary + 1,
        };
        let event = Event::Sets {
            at: from,
            variable: Variable::Own(reading.temporary),
            value: Expression::Value(Variable::Shared(number)),
        };
        self.add_simple(alloc, running, reading.at, event, next.at)?;
        Ok(next)
    }

    /// The edge of a read, where the operation reads what all threads share.
    fn add_operation(
        &mut self,
        alloc: Global,
        running: &Running,
        reading: Reading,
        from: u32,
        operation: Operation,
    ) -> Result<Reading, AllocError>
        requires room { reading.at.0 + length (shared_of operation) < 2 ^ 32 }
        requires within { AreWithin running.now (action.read_actions from (reads reading.temporary (shared_of operation)) reading.at.0) }
        ensures { IfOk result (λ next. AddsReads running.now from self.old self.new reading next (shared_of operation)) }
    {
        match operation {
            Operation::Value(Variable::Shared(number)) => {
                self.add_read(alloc, running, reading, from, number)
            }
            _ => Ok(reading),
        }
    }

    /// The edges of the reads in front of what operations compute.
    pub(crate) fn add_reads(
        &mut self,
        alloc: Global,
        running: &Running,
        first: Reading,
        from: u32,
        operations: &[Operation],
    ) -> Result<Reading, AllocError>
        requires room { first.at.0 + length (shared_variables operations.now) < 2 ^ 32 }
        requires within { AreWithin running.now (action.read_actions from (reads first.temporary (shared_variables operations.now)) first.at.0) }
        ensures { IfOk result (λ next. AddsReads running.now from self.old self.new first next (shared_variables operations.now)) }
    {
        let mut reading = first;
        'operations: for operation in operations {
            reading = self.add_operation(alloc, running, reading, from, *operation)?;
        }
        Ok(reading)
    }
}
