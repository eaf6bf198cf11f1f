//! The locations of a thread, counted from its first instruction to its last.

ghost use Rattle.std.specs.Prelude.{◌≡◌, ◌+◌, ◌-◌, ◌<◌, ◌≤◌, ◌^◌, suc, ℕ, length, IfOk, OnOk, MatchOption};
ghost use Rattle.thr_base.specs.Limits.{most_locations};
ghost use Rattle.thread_cfg.specs.inside.Sizes as specs;
ghost use Rattle.thread_cfg.specs.inside.Counter.{IsCounted, IsCountOf, counted_of};

use crate::sizes::behind_instruction;
use c_check::Instruction;
use std::alloc::{AllocError, Global};
use thr_base::Loc;

/// What is known in front of an instruction.
#[derive(Drop)]
pub(crate) struct Counter {
    /// Its location.
    pub(crate) at: u32,
    /// Where the loops around it begin, the innermost one last.
    pub(crate) around: Vec<Loc>,
    /// Where those begin that have ended, in the order of their ends.
    pub(crate) loops: Vec<Loc>,
    /// How many atomic blocks are around it.
    pub(crate) depth: usize,
}

impl Counter {
    /// In front of all instructions.
    fn new(alloc: Global) -> Counter
        ensures { counted_of result ≡ specs.count_start }
    {
        Counter {
            at: 1,
            around: Vec::new(alloc),
            loops: Vec::new(alloc),
            depth: 0,
        }
    }

    /// The innermost loop ends.
    fn end_loop(&mut self) -> Result<(), AllocError>
        ensures { OnOk result (counted_of self.new ≡ specs.loop_ended (counted_of self.old).around (counted_of self.old)) }
    {
        if let Some(begins) = self.around.pop() {
            self.loops.push(begins)?;
        }
        Ok(())
    }

    /// Past an instruction outside atomic blocks, unless the locations are too many.
    fn count_outside(&mut self, instruction: &Instruction) -> Result<bool, AllocError>
        requires { self.old.at < most_locations }
        ensures { IfOk result (λ few. IsCounted few (counted_of self.new) (specs.counted_outside instruction.now (counted_of self.old))) }
    {
        let begins = Loc(self.at);
        let behind = behind_instruction(self.at, instruction);
        let Some(at) = behind else {
            return Ok(false);
        };
        match instruction {
            Instruction::Loop(_, _) => self.around.push(begins)?,
            Instruction::EndLoop => self.end_loop()?,
            Instruction::Atomic(_) => self.depth = 1,
            _ => {}
        }
        self.at = at;
        Ok(true)
    }

    /// Past an instruction in an atomic block.
    fn count_inside(&mut self, instruction: &Instruction)
        requires some { 0 < self.old.depth }
        requires room { self.old.depth < 2 ^ 64 - 1 }
        ensures { (more : ℕ) → self.old.depth ≡ suc more → counted_of self.new ≡ specs.counted_inside more instruction.now (counted_of self.old) }
    {
        match instruction {
            Instruction::Atomic(_) => self.depth += 1,
            Instruction::EndAtomic => self.depth -= 1,
            _ => {}
        }
    }

    /// Past an instruction, unless the locations are too many.
    fn count(&mut self, instruction: &Instruction) -> Result<bool, AllocError>
        requires few { self.old.at < most_locations }
        requires room { self.old.depth < 2 ^ 64 - 1 }
        ensures { IfOk result (λ few. IsCounted few (counted_of self.new) (specs.counted (counted_of self.old) instruction.now)) }
    {
        if self.depth == 0 {
            self.count_outside(instruction)
        } else {
            self.count_inside(instruction);
            Ok(true)
        }
    }
}

/// What is known behind all instructions, unless the locations are too many.
pub(crate) fn count_locations(
    alloc: Global,
    code: &[Instruction],
) -> Result<Option<Counter>, AllocError>
    ensures { IfOk result (λ found. IsCountOf found (specs.counted_all code.now specs.count_start)) }
{
    let mut counter = Counter::new(alloc);
    'code: for instruction in code {
        let few = counter.count(instruction)?;
        if !few {
            return Ok(None);
        }
    }
    Ok(Some(counter))
}
