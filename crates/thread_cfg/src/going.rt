//! The paths of an atomic body, from its last instruction to its first.

ghost use Rattle.std.specs.Prelude.{◌≡◌, ◌<◌, ◌≤◌, ◌+◌, ◌-◌, ◌^◌, ℕ, suc, ◌∷◌, [], length, Some, IfOk, OnOk};
ghost use Rattle.thread_cfg.specs.inside.Few as specs;
ghost use Rattle.thread_cfg.specs.inside.Gone.{event_of, going_of, ways_held, ways_of};

use crate::branches::{condition_ways, test_ways};
use crate::event::{Event, Expression};
use crate::paths::{Ending, Ways};
use c_check::{Condition, Instruction, TestOperation};
use std::alloc::{AllocError, Global};
use std::mem;

/// What is known behind an instruction.
#[derive(Drop)]
pub(crate) struct Going<'a> {
    /// The paths from there on.
    pub(crate) ways: Ways<'a>,
    /// For each choice around it the paths of its other side, the innermost one last.
    pub(crate) opened: Vec<Ways<'a>>,
    /// In how many loops and blocks it is, which have no paths.
    pub(crate) depth: usize,
}

impl<'a> Going<'a> {
    /// Behind the last instruction: one path, on which nothing happens.
    fn new(alloc: Global) -> Result<Going<'a>, AllocError>
        ensures { IfOk result (λ going. going_of going ≡ specs.going_start) }
    {
        let ways = Ways::bare(alloc, Ending::Through)?;
        Ok(Going {
            ways,
            opened: Vec::new(alloc),
            depth: 0,
        })
    }

    /// An event comes first.
    fn begin(&mut self, alloc: Global, event: Event<'a>) -> Result<(), AllocError>
        ensures ways { OnOk result (going_of self.new ≡ record (going_of self.old) { ways = specs.all_after (event_of event.entry) (ways_of self.old.ways) }) }
        ensures depth { self.new.depth ≡ self.old.depth }
    {
        let ways = mem::replace(&mut self.ways, Ways::none(alloc));
        self.ways = ways.after(alloc, event)?;
        Ok(())
    }

    /// A test comes first, with the paths of its false side.
    fn test(
        &mut self,
        alloc: Global,
        tests: &'a [TestOperation],
        on_false: Ways<'a>,
    ) -> Result<(), AllocError>
        ensures ways { OnOk result (going_of self.new ≡ record (going_of self.old) { ways = specs.test_ways tests.now (ways_of self.old.ways) (ways_of on_false.entry) }) }
        ensures depth { self.new.depth ≡ self.old.depth }
    {
        let ways = mem::replace(&mut self.ways, Ways::none(alloc));
        self.ways = test_ways(alloc, tests, ways, on_false)?;
        Ok(())
    }

    /// To the end of a choice's false side.
    fn enter_end_if(&mut self, alloc: Global) -> Result<(), AllocError>
        ensures gone { OnOk result (going_of self.new ≡ record (going_of self.old) { opened = ways_of self.old.ways ∷ ways_held self.old.opened.items }) }
        ensures depth { self.new.depth ≡ self.old.depth }
    {
        let again = self.ways.copy(alloc)?;
        self.opened.push(again)?;
        Ok(())
    }

    /// To the end of a choice's true side.
    fn enter_else(&mut self) -> Result<(), AllocError>
        ensures gone { OnOk result (going_of self.new ≡ specs.gone_else (going_of self.old).opened (going_of self.old)) }
        ensures depth { self.new.depth ≡ self.old.depth }
    {
        if let Some(behind) = self.opened.pop() {
            let begins = mem::replace(&mut self.ways, behind);
            self.opened.push(begins)?;
        }
        Ok(())
    }

    /// To the front of a choice.
    fn enter_if(&mut self, alloc: Global, condition: &'a Condition) -> Result<(), AllocError>
        ensures gone { OnOk result (going_of self.new ≡ specs.gone_if condition.now (going_of self.old).opened (going_of self.old)) }
        ensures depth { self.new.depth ≡ self.old.depth }
    {
        if let Some(other) = self.opened.pop() {
            let ways = mem::replace(&mut self.ways, Ways::none(alloc));
            self.ways = condition_ways(alloc, condition, ways, other)?;
        }
        Ok(())
    }

    /// To the front of an instruction outside loops and blocks.
    fn enter_outside(
        &mut self,
        alloc: Global,
        instruction: &'a Instruction,
    ) -> Result<(), AllocError>
        requires { self.old.depth ≡ 0 }
        ensures gone { OnOk result (going_of self.new ≡ specs.gone_outside instruction.now (going_of self.old)) }
        ensures depth { self.new.depth ≤ 1 }
    {
        match instruction {
            Instruction::Assign(assignment) => {
                let event = Event::Sets {
                    at: assignment.at,
                    variable: assignment.variable,
                    value: Expression::Whole(assignment.value.as_slice()),
                };
                self.begin(alloc, event)
            }
            Instruction::AssignAny(_, variable) => self.begin(alloc, Event::SetsAny(*variable)),
            Instruction::If(_, condition) => self.enter_if(alloc, condition),
            Instruction::Else => self.enter_else(),
            Instruction::EndIf => self.enter_end_if(alloc),
            Instruction::Assert(_, tests) => {
                let failing = Ways::bare(alloc, Ending::Failing)?;
                self.test(alloc, tests.as_slice(), failing)
            }
            Instruction::Assume(_, tests) => {
                self.test(alloc, tests.as_slice(), Ways::none(alloc))
            }
            Instruction::EndLoop | Instruction::EndAtomic => {
                self.depth = 1;
                Ok(())
            }
            Instruction::Loop(_, _) | Instruction::Last | Instruction::Atomic(_) => Ok(()),
            Instruction::Break(_)
            | Instruction::Exit(_)
            | Instruction::Lock(_, _)
            | Instruction::Unlock(_, _) => {
                self.ways = Ways::none(alloc);
                Ok(())
            }
        }
    }

    /// To the front of a loop or block.
    fn enter_out(&mut self, alloc: Global)
        requires { 0 < self.old.depth }
        ensures gone { (more : ℕ) → self.old.depth ≡ suc more → going_of self.new ≡ specs.gone_out more (going_of self.old) }
        ensures depth { self.new.depth ≡ self.old.depth - 1 }
    {
        self.depth -= 1;
        if self.depth == 0 {
            self.ways = Ways::none(alloc);
        }
    }

    /// To the front of an instruction in a loop or block.
    fn enter_inside(&mut self, alloc: Global, instruction: &Instruction)
        requires some { 0 < self.old.depth }
        requires room { self.old.depth < 2 ^ 64 - 1 }
        ensures gone { (more : ℕ) → self.old.depth ≡ suc more → going_of self.new ≡ specs.gone_inside more instruction.now (going_of self.old) }
        ensures depth { self.new.depth ≤ self.old.depth + 1 }
    {
        match instruction {
            Instruction::Loop(_, _) => self.enter_out(alloc),
            Instruction::Atomic(_) => self.enter_out(alloc),
            Instruction::EndLoop => self.depth += 1,
            Instruction::EndAtomic => self.depth += 1,
            _ => {}
        }
    }

    /// To the front of an instruction.
    fn enter(&mut self, alloc: Global, instruction: &'a Instruction) -> Result<(), AllocError>
        requires room { self.old.depth < 2 ^ 64 - 1 }
        ensures gone { OnOk result (going_of self.new ≡ specs.gone instruction.now (going_of self.old)) }
        ensures depth { self.new.depth ≤ self.old.depth + 1 }
    {
        if self.depth == 0 {
            self.enter_outside(alloc, instruction)
        } else {
            self.enter_inside(alloc, instruction);
            Ok(())
        }
    }
}

/// The paths of an atomic body.
pub(crate) fn block_ways<'a>(alloc: Global, code: &'a [Instruction]) -> Result<Ways<'a>, AllocError>
    ensures { IfOk result (λ ways. ways_of ways ≡ (specs.gone_all code.now specs.going_start).ways) }
{
    let mut going = Going::new(alloc)?;
    'code: for index in (0..code.len()).rev() {
        going.enter(alloc, &code[index])?;
    }
    Ok(going.ways)
}
