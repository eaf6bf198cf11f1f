//! The instructions around the parts of compound statements.

ghost use Rattle.std.specs.Prelude.{◌≡◌, ◌∷◌, ◌++◌, [], length, IfOk, OnOk, option_map};
ghost use Rattle.c_tree.specs.Seen.{plain_assign, plain_cond, plain_first};
ghost use Rattle.c_check.specs.Plan as plan;
ghost use Rattle.c_check.specs.Scope.{open_scope};
ghost use Rattle.c_check.specs.Broken as broken;
ghost use Rattle.c_check.specs.Resolve as resolve;
ghost use Rattle.c_check.specs.Temporaries as temporaries;
ghost use Rattle.c_check.specs.declared.instruction.Instruction.TheVariants as instruction;
ghost use Rattle.c_check.specs.declared.uses.Use.TheVariants.{Condition as AsCondition};
ghost use Rattle.c_check.specs.First.{first_of};
ghost use Rattle.c_check.specs.inside.Found.{first_found, loop_end, outside_atomic, refused, tested, together};

use crate::body::Body;
use crate::breaks::{assign_if, cond, cond_if, not_in_atomic};
use crate::calls::not_zero;
use crate::conditions::{condition, test_need};
use crate::first::earlier;
use crate::instruction::Instruction;
use crate::place::Place;
use crate::scopes::Scopes;
use crate::test::Condition;
use c_tree::{Assign, Cond, First};
use sqlite_items::Boxed;
use std::alloc::{AllocError, Global};

// How many temporaries a condition needs.
fn condition_need(c: &Condition) -> usize
    ensures { (k : plan.Condition) → c.now ≡ plan.stored_condition_of k → result ≡ temporaries.condition_need k }
{
    match c {
        Condition::Choice(_) => 0,
        Condition::Test(_, operations) => test_need(operations.as_slice()),
    }
}

// The condition of a `for`: without one it goes on for ever.
fn condition_if(
    alloc: Global,
    scopes: &Scopes,
    from: u32,
    c: &Option<Boxed<Cond>>,
) -> Result<Condition, AllocError>
    ensures { IfOk result (λ r. r ≡ plan.stored_condition_of (resolve.condition_if scopes.now from (option_map plain_cond c.now))) }
{
    match c {
        None => {
            let always = not_zero(alloc, from, 1)?;
            Ok(Condition::Test(from, always))
        }
        Some(c) => condition(alloc, scopes, c.get()),
    }
}

impl Body {
    // Writes the beginning of an `if`.
    fn push_if(&mut self, from: u32, condition: Condition) -> Result<(), AllocError>
        ensures { (k : plan.Condition) → condition ≡ plan.stored_condition_of k → OnOk result (self.new ≡ together self.old (tested (instruction.If from) k)) }
    {
        self.push_needing(condition_need(&condition), Instruction::If(from, condition))
    }

    // Writes the beginning of a loop.
    fn push_loop(&mut self, from: u32, condition: Condition) -> Result<(), AllocError>
        ensures { (k : plan.Condition) → condition ≡ plan.stored_condition_of k → OnOk result (self.new ≡ together self.old (tested (instruction.Loop from) k)) }
    {
        self.push_needing(
            condition_need(&condition),
            Instruction::Loop(from, condition),
        )
    }

    /// Goes over an `if` as far as its condition.
    pub fn begin_if(
        &mut self,
        alloc: Global,
        scopes: &Scopes,
        from: u32,
        c: &Cond,
    ) -> Result<(), AllocError>
        ensures { OnOk result (self.new ≡ together (together self.old (refused (first_of (broken.value_broken scopes.now AsCondition (plain_cond c.now)))))
            (tested (instruction.If from) (resolve.condition scopes.now (plain_cond c.now)))) }
    {
        self.note(cond(scopes, c));
        let condition = condition(alloc, scopes, c)?;
        self.push_if(from, condition)
    }

    /// Goes over a `while` as far as its condition.
    pub fn begin_while(
        &mut self,
        alloc: Global,
        scopes: &Scopes,
        place: Place,
        from: u32,
        c: &Cond,
    ) -> Result<(), AllocError>
        ensures { OnOk result (self.new ≡ together (together self.old (refused (first_of (broken.not_in_atomic place from ++ broken.value_broken scopes.now AsCondition (plain_cond c.now)))))
            (tested (instruction.Loop from) (resolve.condition scopes.now (plain_cond c.now)))) }
    {
        self.note(earlier(not_in_atomic(place, from), cond(scopes, c)));
        let condition = condition(alloc, scopes, c)?;
        self.push_loop(from, condition)
    }

    /// Goes over a `for` as far as its first part, and opens its scope.
    pub fn enter_for(
        &mut self,
        alloc: Global,
        scopes: &mut Scopes,
        place: Place,
        from: u32,
        first: &First,
    ) -> Result<(), AllocError>
        ensures scopes { OnOk result (scopes.new ≡ resolve.with_first (open_scope scopes.old) (length self.old.locals) (plain_first first.now)) }
        ensures body { OnOk result (self.new ≡ together (together self.old (refused (first_of (broken.not_in_atomic place from))))
            (first_found (open_scope scopes.old) (length self.old.locals) (plain_first first.now))) }
    {
        scopes.open()?;
        self.note(not_in_atomic(place, from));
        self.first(alloc, scopes, first)
    }

    /// Goes over the rest of a `for` as far as its body; its last part is written behind that.
    pub fn begin_for(
        &mut self,
        alloc: Global,
        scopes: &Scopes,
        from: u32,
        c: &Option<Boxed<Cond>>,
        last: &Option<Boxed<Assign>>,
    ) -> Result<(), AllocError>
        ensures { OnOk result (self.new ≡ together (together self.old (refused (first_of (broken.value_if_broken scopes.now AsCondition (option_map plain_cond c.now) ++ broken.assign_if_broken scopes.now (option_map plain_assign last.now)))))
            (tested (instruction.Loop from) (resolve.condition_if scopes.now from (option_map plain_cond c.now)))) }
    {
        self.note(earlier(cond_if(scopes, c), assign_if(scopes, last)));
        let condition = condition_if(alloc, scopes, from, c)?;
        self.push_loop(from, condition)
    }

    /// Writes the end of a loop, with the last part of a `for`.
    pub fn end_loop(
        &mut self,
        alloc: Global,
        scopes: &Scopes,
        last: &Option<Boxed<Assign>>,
    ) -> Result<(), AllocError>
        ensures { OnOk result (self.new ≡ together self.old (loop_end scopes.now (option_map plain_assign last.now))) }
    {
        self.push(Instruction::Last)?;
        self.assign_if(alloc, scopes, last)?;
        self.push(Instruction::EndLoop)
    }

    /// Writes an instruction that may not stand in an atomic block.
    pub fn push_outside_atomic(
        &mut self,
        place: Place,
        from: u32,
        instruction: Instruction,
    ) -> Result<(), AllocError>
        ensures { OnOk result (self.new ≡ together self.old (outside_atomic place from instruction)) }
    {
        self.note(not_in_atomic(place, from));
        self.push(instruction)
    }
}
