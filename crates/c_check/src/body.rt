//! What is found of the statements of a function.

ghost use Rattle.std.specs.Prelude.{◌≡◌, [], ◌∷◌, OnOk};
ghost use Rattle.c_check.specs.inside.Found.{atomic_end, nothing, refused, together, written};

use crate::first::earlier;
use crate::instruction::Instruction;
use sqlite_items::Items;
use std::alloc::{AllocError, Global};
use thr_base::Refusal;

/// What is found of the statements of a function.
#[derive(Drop)]
pub struct Body {
    /// The names of its locals, in the order of the text.
    pub locals: Items<Items<u8>>,
    /// How many it needs.
    pub temporaries: usize,
    pub code: Items<Instruction>,
    /// The first rule that is broken.
    pub refusal: Option<Refusal>,
}

impl Body {
    pub fn new(alloc: Global) -> Body
        ensures { result ≡ nothing }
    {
        Body {
            locals: Items::new(alloc),
            temporaries: 0,
            code: Items::new(alloc),
            refusal: None,
        }
    }

    /// Notes a refusal, if there is one.
    pub fn note(&mut self, refusal: Option<Refusal>)
        ensures { self.new ≡ together self.old (refused refusal) }
    {
        self.refusal = earlier(self.refusal, refusal);
    }

    /// Writes an instruction.
    pub fn push(&mut self, instruction: Instruction) -> Result<(), AllocError>
        ensures { OnOk result (self.new ≡ together self.old (written 0 (instruction ∷ []))) }
    {
        self.code.push(instruction)
    }

    /// Writes an instruction that needs temporaries.
    pub fn push_needing(
        &mut self,
        temporaries: usize,
        instruction: Instruction,
    ) -> Result<(), AllocError>
        ensures { OnOk result (self.new ≡ together self.old (written temporaries (instruction ∷ []))) }
    {
        self.temporaries = self.temporaries.max(temporaries);
        self.code.push(instruction)
    }

    /// Writes the end of an atomic block, in front of which so many temporaries were needed: what is in it is not cut.
    pub fn end_atomic(&mut self, temporaries: usize) -> Result<(), AllocError>
        ensures { OnOk result (self.new ≡ atomic_end temporaries self.old) }
    {
        self.temporaries = temporaries;
        self.code.push(Instruction::EndAtomic)
    }
}
