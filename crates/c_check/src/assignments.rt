//! Assignments, as the instructions that they are.

ghost use Rattle.std.specs.Prelude.{◌≡◌, [], ◌∷◌, ◌++◌, IfOk, OnOk, option_map, pos};
ghost use Rattle.c_tree.specs.Seen.{plain_assign, plain_right};
ghost use Rattle.c_check.specs.Plan.{Arithmetic, Stmt, one, postfix};
ghost use Rattle.c_check.specs.Resolve as resolve;
ghost use Rattle.c_check.specs.Temporaries.{reads_of};
ghost use Rattle.c_check.specs.Items as items;
ghost use Rattle.c_check.specs.declared.operation.Operation.TheVariants.{Value};
ghost use Rattle.c_check.specs.inside.Found.{found, together};

use crate::arithmetic::{arithmetic, shared_count};
use crate::body::Body;
use crate::instruction::{Assignment, Instruction};
use crate::lookups::variable;
use crate::meaning::Variable;
use crate::operation::Operation;
use crate::scopes::Scopes;
use c_tree::{Assign, Name, Right};
use sqlite_items::{Boxed, Items};
use std::alloc::{AllocError, Global};

// How many of so many reads are made apart, where a variable is set to what is read.
fn reads(variable: Variable, count: usize) -> usize
    ensures { result ≡ reads_of (items.written variable count) count }
{
    match variable {
        Variable::Shared(_) => count,
        Variable::Own(_) => { if count < 2 { 0 } else { count } }
    }
}

// What is computed of a variable and an operand.
fn computed(
    alloc: Global,
    variable: Variable,
    operation: Operation,
    operand: Items<Operation>,
) -> Result<Items<Operation>, AllocError>
    ensures { IfOk result (λ r. r ≡ ((Value variable ∷ []) ++ operand) ++ operation ∷ []) }
{
    let mut operations = Items::new(alloc);
    operations.push(Operation::Value(variable))?;
    operations.append(operand)?;
    operations.push(operation)?;
    Ok(operations)
}

impl Body {
    // Writes an assignment.
    fn store(&mut self, assignment: Assignment) -> Result<(), AllocError>
        ensures { (e : Arithmetic) → assignment.value ≡ postfix e → OnOk result (self.new ≡ together self.old (found [] (one (Stmt.Assign assignment.from assignment.at assignment.variable e)) [])) }
    {
        let count = shared_count(assignment.value.as_slice());
        self.push_needing(
            reads(assignment.variable, count),
            Instruction::Assign(assignment),
        )
    }

    // Writes what is computed of a variable and an operand into the variable.
    fn change(
        &mut self,
        alloc: Global,
        scopes: &Scopes,
        from: u32,
        x: &Name,
        operation: Operation,
        operand: Items<Operation>,
    ) -> Result<(), AllocError>
        ensures { (combined : Arithmetic → Arithmetic → Arithmetic) (a : Arithmetic)
            → ((l r : Arithmetic) → postfix (combined l r) ≡ (postfix l ++ postfix r) ++ operation ∷ [])
            → operand ≡ postfix a
            → OnOk result (self.new ≡ together self.old (found [] (resolve.changed scopes.now from x.now combined a) [])) }
    {
        let variable = variable(scopes, x);
        let value = computed(alloc, variable, operation, operand)?;
        self.store(Assignment {
            from,
            at: x.from,
            variable,
            value,
        })
    }

    // The same with 1.
    fn step(
        &mut self,
        alloc: Global,
        scopes: &Scopes,
        from: u32,
        x: &Name,
        operation: Operation,
    ) -> Result<(), AllocError>
        ensures { (combined : Arithmetic → Arithmetic → Arithmetic)
            → ((l r : Arithmetic) → postfix (combined l r) ≡ (postfix l ++ postfix r) ++ operation ∷ [])
            → OnOk result (self.new ≡ together self.old (found [] (resolve.changed scopes.now from x.now combined (Arithmetic.Number (pos 1))) [])) }
    {
        let mut one = Items::new(alloc);
        one.push(Operation::Number(1))?;
        self.change(alloc, scopes, from, x, operation, one)
    }

    /// Writes that a variable is set to a value.
    pub fn set(
        &mut self,
        alloc: Global,
        scopes: &Scopes,
        x: &Name,
        value: &Right,
    ) -> Result<(), AllocError>
        ensures { OnOk result (self.new ≡ together self.old (found [] (resolve.set scopes.now x.now (plain_right value.now)) [])) }
    {
        let variable = variable(scopes, x);
        match value {
            Right::Nondet(_) => self.push(Instruction::AssignAny(x.from, variable)),
            Right::Expr(e) => {
                let value = arithmetic(alloc, scopes, e)?;
                self.store(Assignment {
                    from: x.from,
                    at: e.place(),
                    variable,
                    value,
                })
            }
        }
    }

    /// Writes that a variable is set to what it starts with, if it starts with something.
    pub fn set_if(
        &mut self,
        alloc: Global,
        scopes: &Scopes,
        x: &Name,
        value: &Option<Right>,
    ) -> Result<(), AllocError>
        ensures { OnOk result (self.new ≡ together self.old (found [] (resolve.set_if scopes.now x.now (option_map plain_right value.now)) [])) }
    {
        match value {
            None => Ok(()),
            Some(value) => self.set(alloc, scopes, x, value),
        }
    }

    /// Writes an assignment of the text.
    pub fn assign(&mut self, alloc: Global, scopes: &Scopes, a: &Assign) -> Result<(), AllocError>
        ensures { OnOk result (self.new ≡ together self.old (found [] (resolve.assign scopes.now (plain_assign a.now)) [])) }
    {
        match a {
            Assign::Set(x, value) => self.set(alloc, scopes, x, value),
            Assign::Add(x, e) => {
                let operand = arithmetic(alloc, scopes, e)?;
                self.change(alloc, scopes, x.from, x, Operation::Add, operand)
            }
            Assign::Subtract(x, e) => {
                let operand = arithmetic(alloc, scopes, e)?;
                self.change(alloc, scopes, x.from, x, Operation::Subtract, operand)
            }
            Assign::Increment(x) => self.step(alloc, scopes, x.from, x, Operation::Add),
            Assign::Decrement(x) => self.step(alloc, scopes, x.from, x, Operation::Subtract),
            Assign::IncrementFirst(from, x) => self.step(alloc, scopes, *from, x, Operation::Add),
            Assign::DecrementFirst(from, x) => {
                self.step(alloc, scopes, *from, x, Operation::Subtract)
            }
        }
    }

    /// Writes the last part of a `for`.
    pub fn assign_if(
        &mut self,
        alloc: Global,
        scopes: &Scopes,
        a: &Option<Boxed<Assign>>,
    ) -> Result<(), AllocError>
        ensures { OnOk result (self.new ≡ together self.old (found [] (resolve.assign_if scopes.now (option_map plain_assign a.now)) [])) }
    {
        match a {
            None => Ok(()),
            Some(a) => self.assign(alloc, scopes, a.get()),
        }
    }
}
