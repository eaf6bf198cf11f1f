//! The parts of a thread, from its last instruction to its first: behind each it is known where it leads.

ghost use Rattle.std.specs.Prelude.{◌≡◌, ◌⊎◌, ◌-◌, ◌+◌, ◌<◌, ◌≤◌, ◌^◌, suc, ℕ, List, [], ◌∷◌, length, option_map, slice_index_or, IfOk, OnOk};
ghost use Rattle.c_check.specs.declared.instruction.Instruction.{Instruction as AnInstruction};
ghost use Rattle.c_check.specs.declared.instruction.Instruction.TheVariants as instruction;
ghost use Rattle.thread_cfg.specs.inside.Parts.{Written};
ghost use Rattle.thread_cfg.specs.inside.Pass as specs;
ghost use Rattle.thread_cfg.specs.inside.Passing.{block_by, location_of, locations_held, opened_held, opened_of, parts_held, passed_at, passed_of, written_of};

use crate::part::Part;
use crate::sides::{in_front, push_test};
use crate::sizes::assignment_size;
use c_check::{Condition, Instruction, TestOperation};
use std::alloc::{AllocError, Global};
use thr_base::Loc;

/// What is known at the end of what is open: for a choice, where both sides lead, and where its false side begins; for a loop,
/// where it leads, and the location behind the loop around it.
#[derive(Clone, Copy)]
pub(crate) struct Opened {
    pub(crate) next: Loc,
    pub(crate) other: Loc,
}

/// What is known behind an instruction.
#[derive(Drop)]
pub(crate) struct Pass<'a> {
    /// The location of what comes next in the text.
    pub(crate) at: Loc,
    /// Where the instruction leads.
    pub(crate) next: Loc,
    /// The location behind the innermost loop.
    pub(crate) out: Loc,
    /// What is open, the innermost one last.
    pub(crate) opened: Vec<Opened>,
    /// Where the loops begin that were not come to, in the order of their ends.
    pub(crate) loops: Vec<Loc>,
    /// In how many atomic blocks it is.
    pub(crate) depth: usize,
    /// The index at which the outermost of these ends.
    pub(crate) end: usize,
    /// From the last one to the first.
    pub(crate) parts: Vec<Part<'a>>,
}

impl<'a> Pass<'a> {
    /// Behind all.
    fn new(alloc: Global, exit: Loc, loops: Vec<Loc>, end: usize) -> Pass<'a>
        ensures passed { passed_of result [] ≡ specs.pass_start exit.0 (locations_held loops.items) }
        ensures end { result.end ≡ end }
    {
        Pass {
            at: exit,
            next: exit,
            out: exit,
            opened: Vec::new(alloc),
            loops,
            depth: 0,
            end,
            parts: Vec::new(alloc),
        }
    }

    /// A part with so many locations.
    fn push(&mut self, count: usize, part: Part<'a>) -> Result<(), AllocError>
        ensures part { (block : List AnInstruction) → OnOk result (passed_of self.new block ≡ specs.with_part count (written_of part.entry) (passed_of self.old block)) }
        ensures depth { self.new.depth ≡ self.old.depth }
        ensures end { self.new.end ≡ self.old.end }
    {
        self.parts.push(part)?;
        self.at = in_front(self.at, count);
        self.next = self.at;
        Ok(())
    }

    /// A test, with its sides.
    fn push_test(
        &mut self,
        alloc: Global,
        tests: &'a [TestOperation],
        on_true: Option<Loc>,
        on_false: Option<Loc>,
    ) -> Result<(), AllocError>
        ensures parts { (block : List AnInstruction) → OnOk result (passed_of self.new block
            ≡ specs.with_test tests.now (option_map location_of on_true) (option_map location_of on_false) (passed_of self.old block)) }
        ensures depth { self.new.depth ≡ self.old.depth }
        ensures end { self.new.end ≡ self.old.end }
    {
        let at = push_test(alloc, tests, self.at, on_true, on_false, &mut self.parts)?;
        self.at = at;
        self.next = at;
        Ok(())
    }

    /// What is tested or chosen, with its sides.
    fn push_condition(
        &mut self,
        alloc: Global,
        condition: &'a Condition,
        on_true: Loc,
        on_false: Loc,
    ) -> Result<(), AllocError>
        ensures parts { (block : List AnInstruction) → OnOk result (passed_of self.new block
            ≡ specs.with_condition condition.now on_true.0 on_false.0 (passed_of self.old block)) }
        ensures depth { self.new.depth ≡ self.old.depth }
        ensures end { self.new.end ≡ self.old.end }
    {
        match condition {
            Condition::Choice(from) => self.push(1, Part::Choice(*from, on_true, on_false)),
            Condition::Test(_, tests) => {
                self.push_test(alloc, tests.as_slice(), Some(on_true), Some(on_false))
            }
        }
    }

    /// To the end of a choice's false side.
    fn enter_end_if(&mut self) -> Result<(), AllocError>
        ensures passed { (block : List AnInstruction) → OnOk result (passed_of self.new block
            ≡ record (passed_of self.old block) { opened = record { next = self.old.next.0; other = self.old.next.0 } ∷ opened_held self.old.opened.items }) }
        ensures depth { self.new.depth ≡ self.old.depth }
        ensures end { self.new.end ≡ self.old.end }
    {
        self.opened.push(Opened {
            next: self.next,
            other: self.next,
        })?;
        Ok(())
    }

    /// To the end of a choice's true side.
    fn enter_else(&mut self) -> Result<(), AllocError>
        ensures passed { (block : List AnInstruction) → OnOk result (passed_of self.new block
            ≡ specs.passed_else (passed_of self.old block).opened (passed_of self.old block)) }
        ensures depth { self.new.depth ≡ self.old.depth }
        ensures end { self.new.end ≡ self.old.end }
    {
        let begins = self.next;
        if let Some(choice) = self.opened.pop() {
            self.next = choice.next;
            self.opened.push(Opened {
                next: choice.next,
                other: begins,
            })?;
        }
        Ok(())
    }

    /// To the front of a choice.
    fn enter_if(&mut self, alloc: Global, condition: &'a Condition) -> Result<(), AllocError>
        ensures passed { (block : List AnInstruction) → OnOk result (passed_of self.new block
            ≡ specs.passed_if condition.now (passed_of self.old block).opened (passed_of self.old block)) }
        ensures depth { self.new.depth ≡ self.old.depth }
        ensures end { self.new.end ≡ self.old.end }
    {
        let begins = self.next;
        match self.opened.pop() {
            Some(choice) => self.push_condition(alloc, condition, begins, choice.other),
            None => Ok(()),
        }
    }

    /// To the end of a loop, which leads to where it begins.
    fn enter_end_loop(&mut self) -> Result<(), AllocError>
        ensures passed { (block : List AnInstruction) → OnOk result (passed_of self.new block
            ≡ specs.passed_end_loop (passed_of self.old block).loops (passed_of self.old block)) }
        ensures depth { self.new.depth ≡ self.old.depth }
        ensures end { self.new.end ≡ self.old.end }
    {
        if let Some(begins) = self.loops.pop() {
            self.opened.push(Opened {
                next: self.next,
                other: self.out,
            })?;
            self.out = self.next;
            self.next = begins;
        }
        Ok(())
    }

    /// To the front of a loop.
    fn enter_loop(&mut self, alloc: Global, condition: &'a Condition) -> Result<(), AllocError>
        ensures passed { (block : List AnInstruction) → OnOk result (passed_of self.new block
            ≡ specs.passed_loop condition.now (passed_of self.old block).opened (passed_of self.old block)) }
        ensures depth { self.new.depth ≡ self.old.depth }
        ensures end { self.new.end ≡ self.old.end }
    {
        let begins = self.next;
        match self.opened.pop() {
            Some(around) => {
                self.out = around.other;
                self.push_condition(alloc, condition, begins, around.next)
            }
            None => Ok(()),
        }
    }

    /// To the front of an instruction outside atomic blocks.
    fn enter_outside(
        &mut self,
        alloc: Global,
        exit: Loc,
        instruction: &'a Instruction,
        index: usize,
    ) -> Result<(), AllocError>
        requires { self.old.depth ≡ 0 }
        ensures passed { OnOk result (passed_of self.new [] ≡ specs.passed_outside exit.0 instruction.now (passed_of self.old [])) }
        ensures end { OnOk result (((self.new.depth ≡ 0) × (self.new.end ≡ self.old.end)) ⊎ ((self.new.depth ≡ 1) × (self.new.end ≡ index))) }
    {
        let next = self.next;
        match instruction {
            Instruction::Assign(a) => self.push(assignment_size(a), Part::Assign(a, next)),
            Instruction::AssignAny(from, v) => self.push(1, Part::AssignAny(*from, *v, next)),
            Instruction::If(_, condition) => self.enter_if(alloc, condition),
            Instruction::Else => self.enter_else(),
            Instruction::EndIf => self.enter_end_if(),
            Instruction::Loop(_, condition) => self.enter_loop(alloc, condition),
            Instruction::Last => Ok(()),
            Instruction::EndLoop => self.enter_end_loop(),
            Instruction::Break(from) => self.push(1, Part::Jump(*from, self.out)),
            Instruction::Exit(from) => self.push(1, Part::Jump(*from, exit)),
            Instruction::Lock(from, lock) => self.push(1, Part::Lock(*from, *lock, next)),
            Instruction::Unlock(from, lock) => self.push(1, Part::Unlock(*from, *lock, next)),
            Instruction::Assert(_, tests) => {
                self.push_test(alloc, tests.as_slice(), Some(next), Some(Loc(0)))
            }
            Instruction::Assume(_, tests) => {
                self.push_test(alloc, tests.as_slice(), Some(next), None)
            }
            Instruction::Atomic(_) => Ok(()),
            Instruction::EndAtomic => {
                self.depth = 1;
                self.end = index;
                Ok(())
            }
        }
    }

    /// To the front of the first word of a block, with what is in it.
    fn enter_atomic(&mut self, from: u32, block: &'a [Instruction]) -> Result<(), AllocError>
        requires { 0 < self.old.depth }
        ensures passed { (more : ℕ) → self.old.depth ≡ suc more
            → OnOk result (passed_of self.new (block_by more (instruction.Atomic from ∷ block.now)) ≡ specs.passed_atomic from more (passed_of self.old block.now)) }
        ensures depth { self.new.depth ≡ self.old.depth - 1 }
        ensures end { self.new.end ≡ self.old.end }
    {
        let next = self.next;
        self.depth -= 1;
        if self.depth == 0 {
            self.push(1, Part::Block(from, block, next))
        } else {
            Ok(())
        }
    }

    /// To the front of an instruction in an atomic block.
    fn enter_inside(&mut self, code: &'a [Instruction], index: usize) -> Result<(), AllocError>
        requires some { 0 < self.old.depth }
        requires room { self.old.depth < 2 ^ 64 - 1 }
        requires within { index < self.old.end }
        requires end { self.old.end ≤ length code.now }
        ensures passed { (d : AnInstruction) (more : ℕ) → self.old.depth ≡ suc more → OnOk result (passed_at self.new code.now index
            ≡ specs.passed_inside more (slice_index_or code.now index d) (passed_at self.old code.now (index + 1))) }
        ensures depth { OnOk result (self.new.depth ≤ self.old.depth + 1) }
        ensures end { self.new.end ≡ self.old.end }
    {
        match &code[index] {
            Instruction::Atomic(from) => self.enter_atomic(*from, &code[index + 1..self.end]),
            Instruction::EndAtomic => {
                self.depth += 1;
                Ok(())
            }
            _ => Ok(()),
        }
    }

    /// To the front of the instruction at an index.
    fn enter(
        &mut self,
        alloc: Global,
        exit: Loc,
        code: &'a [Instruction],
        index: usize,
    ) -> Result<(), AllocError>
        requires room { self.old.depth < 2 ^ 64 - 1 }
        requires within { index < self.old.end }
        requires end { self.old.end ≤ length code.now }
        ensures passed { (d : AnInstruction) → OnOk result (passed_at self.new code.now index
            ≡ specs.passed exit.0 (slice_index_or code.now index d) (passed_at self.old code.now (index + 1))) }
        ensures depth { OnOk result (self.new.depth ≤ self.old.depth + 1) }
        ensures end { OnOk result ((index ≤ self.new.end) × (self.new.end ≤ length code.now)) }
    {
        if self.depth == 0 {
            self.enter_outside(alloc, exit, &code[index], index)
        } else {
            self.enter_inside(code, index)
        }
    }
}

/// The parts of code, the last one first; with its last location, and where its loops begin.
pub(crate) fn parts_of_code<'a>(
    alloc: Global,
    code: &'a [Instruction],
    exit: Loc,
    loops: Vec<Loc>,
) -> Result<Vec<Part<'a>>, AllocError>
    ensures { IfOk result (λ parts. parts_held parts.items ≡ (specs.passed_all exit.0 code.now (specs.pass_start exit.0 (locations_held loops.items))).parts) }
{
    let mut pass = Pass::new(alloc, exit, loops, code.len());
    'code: for index in (0..code.len()).rev() {
        pass.enter(alloc, exit, code, index)?;
    }
    Ok(pass.parts)
}
