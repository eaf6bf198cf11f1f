//! Expressions that are used as numbers, as a stack machine computes them.

ghost use Rattle.std.specs.Prelude.{◌≡◌, ◌<◌, ◌^◌, ◌++◌, IfOk, OnOk, length};
ghost use Rattle.c_tree.specs.Seen.{plain_expr, plain_product, plain_sum, plain_unary};
ghost use Rattle.c_check.specs.Items.{shared_in};
ghost use Rattle.c_check.specs.Plan.{Arithmetic, postfix};
ghost use Rattle.c_check.specs.Resolve.{arithmetic};
ghost use Rattle.c_check.specs.inside.Operations.{is_shared, shared_operations, sign_operations, sum_operation};

use crate::lookups::variable;
use crate::meaning::Variable;
use crate::operation::Operation;
use crate::scopes::Scopes;
use c_tree::{Expr, Product, Sum, SumKind, Unary, UnaryKind};
use sqlite_items::Items;
use std::alloc::{AllocError, Global};

/// An expression that is used as a number.
pub fn arithmetic(alloc: Global, scopes: &Scopes, e: &Expr) -> Result<Items<Operation>, AllocError>
    ensures { IfOk result (λ r. r ≡ postfix (arithmetic scopes.now (plain_expr e.now))) }
{
    // What would stand behind a mark of a condition is refused elsewhere.
    of_sum(alloc, scopes, &e.first.first.first.first)
}

/// A sum.
pub fn of_sum(alloc: Global, scopes: &Scopes, s: &Sum) -> Result<Items<Operation>, AllocError>
    ensures { IfOk result (λ r. r ≡ postfix (arithmetic scopes.now (plain_sum s.now))) }
{
    let mut operations = Items::new(alloc);
    push_sum(scopes, s, &mut operations)?;
    Ok(operations)
}

/// An operand.
pub fn of_unary(alloc: Global, scopes: &Scopes, u: &Unary) -> Result<Items<Operation>, AllocError>
    ensures { IfOk result (λ r. r ≡ postfix (arithmetic scopes.now (plain_unary u.now))) }
{
    let mut operations = Items::new(alloc);
    push_unary(scopes, u, &mut operations)?;
    Ok(operations)
}

/// How many variables that all threads share an expression names, each as often as it stands there.
pub fn shared_count(operations: &[Operation]) -> usize
    ensures { (a : Arithmetic) → operations.now ≡ postfix a → result ≡ length (shared_in a) }
{
    shared_operations(operations)
}

/// The same of any operations.
pub fn shared_operations(operations: &[Operation]) -> usize
    ensures value { result ≡ shared_operations operations.now }
    ensures small { result < 2 ^ 63 }
{
    let mut count = 0;
    for operation in operations {
        if is_shared(*operation) {
            count += 1;
        }
    }
    count
}

fn is_shared(operation: Operation) -> bool
    ensures { result ≡ is_shared operation }
{
    match operation {
        Operation::Value(Variable::Shared(_)) => true,
        _ => false,
    }
}

fn sum_operation(kind: SumKind) -> Operation
    ensures { result ≡ sum_operation kind }
{
    match kind {
        SumKind::Plus => Operation::Add,
        SumKind::Minus => Operation::Subtract,
    }
}

fn push_sign(kind: UnaryKind, operations: &mut Items<Operation>) -> Result<(), AllocError>
    ensures { OnOk result (operations.new ≡ operations.old ++ sign_operations kind) }
{
    match kind {
        UnaryKind::Minus => operations.push(Operation::Negate),
        UnaryKind::Plus => Ok(()),
        UnaryKind::Not => Ok(()),
    }
}

#[cycle(push)]
fn push_sum(scopes: &Scopes, s: &Sum, operations: &mut Items<Operation>) -> Result<(), AllocError>
    ensures { OnOk result (operations.new ≡ operations.old ++ postfix (arithmetic scopes.now (plain_sum s.now))) }
{
    push_product(scopes, &s.first, operations)?;
    for (mark, part) in s.more.as_slice() {
        push_product(scopes, part, operations)?;
        operations.push(sum_operation(mark.kind))?;
    }
    Ok(())
}

#[cycle(push)]
fn push_product(
    scopes: &Scopes,
    p: &Product,
    operations: &mut Items<Operation>,
) -> Result<(), AllocError>
    ensures { OnOk result (operations.new ≡ operations.old ++ postfix (arithmetic scopes.now (plain_product p.now))) }
{
    push_unary(scopes, &p.first, operations)?;
    for (_, part) in p.more.as_slice() {
        push_unary(scopes, part, operations)?;
        operations.push(Operation::Multiply)?;
    }
    Ok(())
}

#[cycle(push)]
fn push_unary(
    scopes: &Scopes,
    u: &Unary,
    operations: &mut Items<Operation>,
) -> Result<(), AllocError>
    ensures { OnOk result (operations.new ≡ operations.old ++ postfix (arithmetic scopes.now (plain_unary u.now))) }
{
    match u {
        Unary::Operator(_, kind, operand) => {
            push_unary(scopes, operand.get(), operations)?;
            push_sign(*kind, operations)
        }
        Unary::Paren(_, inner) => push_sum(
            scopes,
            &inner.get().first.first.first.first,
            operations,
        ),
        Unary::Number(_, value) => operations.push(Operation::Number(value.number())),
        Unary::Name(name) => operations.push(Operation::Value(variable(scopes, name))),
    }
}
