//! The edges of parts.

ghost use Rattle.std.specs.Prelude.{◌≡◌, ◌+◌, ◌<◌, ◌≤◌, ◌^◌, ℕ, List, [], ◌∷◌, length, map, option_map, OnOk};
ghost use Rattle.c_check.specs.Plan.{Arithmetic, postfix};
ghost use Rattle.thread_cfg.specs.inside.Adds.{AddsActions, AreLeft, AreWithin, actions_of_part, actions_of_parts};
ghost use Rattle.thread_cfg.specs.inside.Parts.{Part as APart, written};
ghost use Rattle.thread_cfg.specs.inside.Passing.{location_of, parts_held, written_of};
ghost use Rattle.thread_cfg.specs.inside.Sizes as sizes;

use crate::comparing::Compared;
use crate::event::{Event, Expression};
use crate::part::Part;
use crate::reading::Reading;
use crate::running::Running;
use crate::sizes::{accesses_of, assignment_size, comparison_size, shared_operations};
use crate::thread::Found;
use c_check::{Assignment, Comparison};
use std::alloc::{AllocError, Global};
use thr_base::Loc;

/// How many locations a part has.
fn part_size(part: &Part<'_>) -> usize
    ensures { result ≡ sizes.written_size (written_of part.now) }
{
    match part {
        Part::Assign(assignment, _) => assignment_size(assignment),
        Part::Compare(comparison, _, _) => comparison_size(comparison),
        _ => 1,
    }
}

/// The location behind so many.
fn behind(at: Loc, size: usize) -> Loc
    requires { at.0 + size < 2 ^ 32 }
    ensures { result.0 ≡ at.0 + size }
{
    Loc(at.0 + size as u32)
}

impl Found {
    /// The edges of an assignment: those of its reads, where there are any, and that of what it sets.
    fn add_assignment(
        &mut self,
        alloc: Global,
        running: &Running,
        at: Loc,
        assignment: &Assignment,
        next: Loc,
    ) -> Result<(), AllocError>
        requires room { at.0 + sizes.assignment_size assignment.now < 2 ^ 32 }
        requires within { (e : Arithmetic) × (assignment.now.value ≡ postfix e)
            × AreWithin running.now (actions_of_part running.now at.0 (APart.Assign assignment.now.from assignment.now.at assignment.now.variable e next.0)) }
        ensures { (e : Arithmetic) → assignment.now.value ≡ postfix e
            → OnOk result (AddsActions running.now at.0 self.old self.new (actions_of_part running.now at.0 (APart.Assign assignment.now.from assignment.now.at assignment.now.variable e next.0))) }
    {
        let operations = assignment.value.as_slice();
        let reads = shared_operations(operations);
        let variable = assignment.variable;
        let place = assignment.at;
        if accesses_of(variable, reads) < 2 {
            let value = Expression::Whole(operations);
            let event = Event::Sets {
                at: place,
                variable,
                value,
            };
            self.add_simple(alloc, running, at, event, next)
        } else {
            let first = Reading {
                at,
                temporary: running.temporary,
            };
            let last = self.add_reads(alloc, running, first, assignment.from, operations)?;
            let value = Expression::Cut(operations, running.temporary);
            let event = Event::Sets {
                at: place,
                variable,
                value,
            };
            self.add_simple(alloc, running, last.at, event, next)
        }
    }

    /// The edges of a comparison: those of its reads, where there are any, and those of its sides.
    fn add_comparison(
        &mut self,
        alloc: Global,
        running: &Running,
        at: Loc,
        comparison: &Comparison,
        on_true: Option<Loc>,
        on_false: Option<Loc>,
    ) -> Result<(), AllocError>
        requires room { at.0 + sizes.comparison_size comparison.now < 2 ^ 32 }
        requires within { (a : Arithmetic) × (b : Arithmetic) × (comparison.now.left ≡ postfix a) × (comparison.now.right ≡ postfix b)
            × AreWithin running.now (actions_of_part running.now at.0
            (APart.Compare comparison.now.from comparison.now.mark a b (option_map location_of on_true) (option_map location_of on_false))) }
        ensures { (a b : Arithmetic) → comparison.now.left ≡ postfix a → comparison.now.right ≡ postfix b
            → OnOk result (AddsActions running.now at.0 self.old self.new (actions_of_part running.now at.0
            (APart.Compare comparison.now.from comparison.now.mark a b (option_map location_of on_true) (option_map location_of on_false)))) }
    {
        let left = comparison.left.as_slice();
        let right = comparison.right.as_slice();
        let from = comparison.from;
        let mark = comparison.mark;
        if shared_operations(left) + shared_operations(right) < 2 {
            let compared = Compared {
                from,
                left: Expression::Whole(left),
                right: Expression::Whole(right),
            };
            self.add_test(alloc, running, at, mark, &compared, on_true, on_false)
        } else {
            let first = Reading {
                at,
                temporary: running.temporary,
            };
            let middle = self.add_reads(alloc, running, first, from, left)?;
            let last = self.add_reads(alloc, running, middle, from, right)?;
            let compared = Compared {
                from,
                left: Expression::Cut(left, running.temporary),
                right: Expression::Cut(right, middle.temporary),
            };
            self.add_test(alloc, running, last.at, mark, &compared, on_true, on_false)
        }
    }

    /// The edges of a part, the first of whose locations is this one.
    fn add_part(
        &mut self,
        alloc: Global,
        running: &Running,
        at: Loc,
        part: &Part<'_>,
    ) -> Result<(), AllocError>
        requires room { at.0 + sizes.written_size (written_of part.now) < 2 ^ 32 }
        requires within { (p : APart) × (written_of part.now ≡ written p) × AreWithin running.now (actions_of_part running.now at.0 p) }
        ensures { (p : APart) → written_of part.now ≡ written p
            → OnOk result (AddsActions running.now at.0 self.old self.new (actions_of_part running.now at.0 p)) }
    {
        match part {
            Part::Assign(assignment, next) => {
                self.add_assignment(alloc, running, at, assignment, *next)
            }
            Part::AssignAny(_, variable, next) => {
                self.add_simple(alloc, running, at, Event::SetsAny(*variable), *next)
            }
            Part::Choice(_, on_true, on_false) => {
                self.add_choice(alloc, running, at, *on_true, *on_false)
            }
            Part::Compare(comparison, on_true, on_false) => {
                self.add_comparison(alloc, running, at, comparison, *on_true, *on_false)
            }
            Part::Jump(_, to) => self.add_jump(alloc, running, at, *to),
            Part::Lock(from, lock, next) => self.add_lock(alloc, running, at, *from, *lock, *next),
            Part::Unlock(from, lock, next) => {
                self.add_unlock(alloc, running, at, *from, *lock, *next)
            }
            Part::Block(from, code, next) => {
                self.add_block(alloc, running, at, *from, code, *next)
            }
        }
    }

    /// The edges of parts that stand in the list from the last one to the first, from location 1 on.
    pub(crate) fn add_parts(
        &mut self,
        alloc: Global,
        running: &Running,
        parts: &[Part<'_>],
    ) -> Result<(), AllocError>
        requires left { AreLeft running.now 1 (parts_held parts.now) }
        ensures { (ps : List APart) → parts_held parts.now ≡ map written ps
            → OnOk result (AddsActions running.now 1 self.old self.new (actions_of_parts running.now 1 ps)) }
    {
        let mut at = Loc(1);
        'parts: for index in (0..parts.len()).rev() {
            let part = &parts[index];
            self.add_part(alloc, running, at, part)?;
            at = behind(at, part_size(part));
        }
        Ok(())
    }
}
