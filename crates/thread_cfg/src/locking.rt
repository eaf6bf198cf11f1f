//! The edges of locks.

ghost use Rattle.std.specs.Prelude.{◌≡◌, ◌<◌, ◌^◌, ℕ, [], ◌∷◌, pos, Some, OnOk};
ghost use Rattle.c_check.specs.declared.meaning.Variable.TheVariants as variable;
ghost use Rattle.c_check.specs.Plan.{Arithmetic};
ghost use Rattle.thread_cfg.specs.declared.relation.Relation.TheVariants as related;
ghost use Rattle.thread_cfg.specs.Action as action;
ghost use Rattle.thread_cfg.specs.Path as path;
ghost use Rattle.thread_cfg.specs.Source.{lock_column};
ghost use Rattle.thread_cfg.specs.inside.Adds.{AddsActions, AddsWays, AreWithin, WaysWithin};
ghost use Rattle.thread_cfg.specs.inside.Meant.{Means, frame_of};

use crate::comparing::Compared;
use crate::event::{Event, Expression};
use crate::marks::Relations;
use crate::relation::Relation;
use crate::running::Running;
use crate::thread::Found;
use c_check::Variable;
use std::alloc::{AllocError, Global};
use thr_base::Loc;

/// A number of the program's own, as one that is computed.
fn number<'a>(value: u32) -> Expression<'a>
    ensures { Means result (Arithmetic.Number (pos value)) }
{
    Expression::Number(i128::from(value))
}

impl Running {
    /// The variable of a lock.
    fn lock_variable(&self, lock: usize) -> Variable
        requires { lock_column (frame_of self.now.frame) lock < 2 ^ 32 }
        ensures { result ≡ variable.Shared (lock_column (frame_of self.now.frame) lock) }
    {
        Variable::Shared(self.frame.variables + lock)
    }
}

impl Found {
    /// The way on where a variable is worth one number and set to another.
    fn add_exchange(
        &mut self,
        alloc: Global,
        running: &Running,
        at: Loc,
        from: u32,
        variable: Variable,
        was: u32,
        becomes: u32,
        to: Loc,
    ) -> Result<(), AllocError>
        requires within { WaysWithin running.now (record {
          events = path.Event.Requires from related.Equal (Arithmetic.Value variable) (Arithmetic.Number (pos was)) ∷ path.Event.Sets from variable (Arithmetic.Number (pos becomes)) ∷ [];
          to = to.0;
        } ∷ []) }
        ensures { OnOk result (AddsWays running.now at.0 self.old self.new (record {
          events = path.Event.Requires from related.Equal (Arithmetic.Value variable) (Arithmetic.Number (pos was)) ∷ path.Event.Sets from variable (Arithmetic.Number (pos becomes)) ∷ [];
          to = to.0;
        } ∷ [])) }
    {
        let events = [
            Event::Requires {
                from,
                relation: Relation::Equal,
                left: Expression::Value(variable),
                right: number(was),
            },
            Event::Sets {
                at: from,
                variable,
                value: number(becomes),
            },
        ];
        self.add_way(alloc, running, at, to, &events)
    }

    /// The edge of a lock: the lock is free, and the thread has it then.
    pub(crate) fn add_lock(
        &mut self,
        alloc: Global,
        running: &Running,
        at: Loc,
        from: u32,
        lock: usize,
        next: Loc,
    ) -> Result<(), AllocError>
        requires within { AreWithin running.now (action.lock_action (frame_of running.now.frame) from lock next.0 ∷ []) }
        ensures { OnOk result (AddsActions running.now at.0 self.old self.new (action.lock_action (frame_of running.now.frame) from lock next.0 ∷ [])) }
    {
        let variable = running.lock_variable(lock);
        let thread = running.frame.thread.0;
        self.add_exchange(alloc, running, at, from, variable, 0, thread, next)
    }

    /// An unlock of a lock that the thread does not hold fails.
    pub(crate) fn add_unlock(
        &mut self,
        alloc: Global,
        running: &Running,
        at: Loc,
        from: u32,
        lock: usize,
        next: Loc,
    ) -> Result<(), AllocError>
        requires within { AreWithin running.now (action.unlock_action (frame_of running.now.frame) from lock next.0 ∷ []) }
        ensures { OnOk result (AddsActions running.now at.0 self.old self.new (action.unlock_action (frame_of running.now.frame) from lock next.0 ∷ [])) }
    {
        let variable = running.lock_variable(lock);
        let thread = running.frame.thread.0;
        self.add_exchange(alloc, running, at, from, variable, thread, 0, next)?;
        let unheld = Relations {
            first: Relation::Less,
            second: Some(Relation::Greater),
        };
        let compared = Compared {
            from,
            left: Expression::Value(variable),
            right: number(thread),
        };
        self.add_requiring(alloc, running, at, unheld, &compared, Some(Loc(0)))
    }
}
