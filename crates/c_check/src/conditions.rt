//! Conditions: choices, and trees of comparisons.

ghost use Rattle.std.specs.Prelude.{◌≡◌, ◌↔◌, ◌++◌, ◌∷◌, [], IfOk, IsTrue, OnOk, pos};
ghost use Rattle.c_tree.specs.Plain.{expr_place};
ghost use Rattle.c_tree.specs.Seen.{plain_cond, plain_conjunction, plain_equality, plain_expr, plain_relation, plain_sum, plain_unary};
ghost use Rattle.c_tree.specs.declared.expr.Product.{out-Product};
ghost use Rattle.c_tree.specs.declared.expr.Sum.{out-Sum};
ghost use Rattle.c_check.specs.Plan as plan;
ghost use Rattle.c_check.specs.Plan.{stored_condition_of, test_postfix};
ghost use Rattle.c_check.specs.Resolve.{arithmetic, condition, not_zero, test};
ghost use Rattle.c_check.specs.Temporaries.{test_need};
ghost use Rattle.c_check.specs.inside.Tests.{equality_comparison, need_of, operation_need, operations_need, relation_comparison};

use crate::arithmetic::{of_sum, of_unary, shared_operations};
use crate::operation::{Mark, Operation};
use crate::scopes::Scopes;
use crate::test::{Comparison, Condition, TestOperation};
use c_tree::{
    Cond, Conjunction, Equality, EqualityKind, Expr, Relation, RelationKind, Sum, Unary, UnaryKind,
};
use sqlite_items::Items;
use std::alloc::{AllocError, Global};

/// An expression that is used as a condition.
pub fn test(alloc: Global, scopes: &Scopes, e: &Expr) -> Result<Items<TestOperation>, AllocError>
    ensures { IfOk result (λ r. r ≡ test_postfix (test scopes.now (plain_expr e.now))) }
{
    let mut tests = Items::new(alloc);
    push_expr(alloc, scopes, e, &mut tests)?;
    Ok(tests)
}

/// What is tested, or a choice.
pub fn condition(alloc: Global, scopes: &Scopes, c: &Cond) -> Result<Condition, AllocError>
    ensures { IfOk result (λ r. r ≡ stored_condition_of (condition scopes.now (plain_cond c.now))) }
{
    match c {
        Cond::Nondet(n) => Ok(Condition::Choice(n.from)),
        Cond::Expr(e) => {
            let tests = test(alloc, scopes, e)?;
            Ok(Condition::Test(e.place(), tests))
        }
    }
}

/// How many temporaries a test needs: as many as the most reads that one of its comparisons is cut into.
pub fn test_need(tests: &[TestOperation]) -> usize
    ensures { (t : plan.Test) → tests.now ≡ test_postfix t → result ≡ test_need t }
{
    operations_need(tests)
}

fn operations_need(tests: &[TestOperation]) -> usize
    ensures { result ≡ operations_need tests.now }
{
    let mut most = 0;
    for test in tests {
        most = most.max(operation_need(test));
    }
    most
}

fn operation_need(operation: &TestOperation) -> usize
    ensures { result ≡ operation_need operation.now }
{
    match operation {
        TestOperation::Compare(c) => {
            let left = shared_operations(c.left.as_slice());
            let right = shared_operations(c.right.as_slice());
            need_of(left + right)
        }
        TestOperation::Not => 0,
        TestOperation::And => 0,
        TestOperation::Or => 0,
    }
}

// How many temporaries so many reads need: one is made where it is used.
fn need_of(reads: usize) -> usize
    ensures { result ≡ need_of reads }
{
    if reads < 2 { 0 } else { reads }
}

fn equality_comparison(kind: EqualityKind) -> Mark
    ensures { result ≡ equality_comparison kind }
{
    match kind {
        EqualityKind::Equal => Mark::Equal,
        EqualityKind::Unequal => Mark::Unequal,
    }
}

fn relation_comparison(kind: RelationKind) -> Mark
    ensures { result ≡ relation_comparison kind }
{
    match kind {
        RelationKind::Less => Mark::Less,
        RelationKind::AtMost => Mark::AtMost,
        RelationKind::Greater => Mark::Greater,
        RelationKind::AtLeast => Mark::AtLeast,
    }
}

// Where a sum begins.
fn place(s: &Sum) -> u32
    ensures { result ≡ expr_place (plain_sum s.now) }
{
    s.first.first.place()
}

// Whether a sum is an operand alone.
fn is_operand(s: &Sum) -> bool
    ensures { IsTrue result ↔ ((out-Product (out-Sum s.now).first).more ≡ []) × ((out-Sum s.now).more ≡ []) }
{
    s.first.more.is_empty() && s.more.is_empty()
}

fn push_comparison(
    alloc: Global,
    scopes: &Scopes,
    mark: Mark,
    left: &Sum,
    right: &Sum,
    tests: &mut Items<TestOperation>,
) -> Result<(), AllocError>
    ensures { OnOk result (tests.new ≡ tests.old ++ test_postfix (plan.Test.Compare (expr_place (plain_sum left.now)) mark (arithmetic scopes.now (plain_sum left.now)) (arithmetic scopes.now (plain_sum right.now)))) }
{
    let from = place(left);
    let left = of_sum(alloc, scopes, left)?;
    let right = of_sum(alloc, scopes, right)?;
    tests.push(TestOperation::Compare(Comparison {
        from,
        mark,
        left,
        right,
    }))
}

// That an expression, of which these are the operations, is not 0.
fn push_not_zero(
    alloc: Global,
    from: u32,
    left: Items<Operation>,
    tests: &mut Items<TestOperation>,
) -> Result<(), AllocError>
    ensures { (a : plan.Arithmetic) → left ≡ plan.postfix a → OnOk result (tests.new ≡ tests.old ++ test_postfix (not_zero from a)) }
{
    let mut right = Items::new(alloc);
    right.push(Operation::Number(0))?;
    tests.push(TestOperation::Compare(Comparison {
        from,
        mark: Mark::Unequal,
        left,
        right,
    }))
}

// That a sum is not 0.
fn push_sum_test(
    alloc: Global,
    scopes: &Scopes,
    s: &Sum,
    tests: &mut Items<TestOperation>,
) -> Result<(), AllocError>
    ensures { OnOk result (tests.new ≡ tests.old ++ test_postfix (not_zero (expr_place (plain_sum s.now)) (arithmetic scopes.now (plain_sum s.now)))) }
{
    let left = of_sum(alloc, scopes, s)?;
    push_not_zero(alloc, place(s), left, tests)
}

// That an operand is not 0.
fn push_unary_test(
    alloc: Global,
    scopes: &Scopes,
    u: &Unary,
    tests: &mut Items<TestOperation>,
) -> Result<(), AllocError>
    ensures { OnOk result (tests.new ≡ tests.old ++ test_postfix (not_zero (expr_place (plain_unary u.now)) (arithmetic scopes.now (plain_unary u.now)))) }
{
    let left = of_unary(alloc, scopes, u)?;
    push_not_zero(alloc, u.place(), left, tests)
}

#[cycle(push)]
fn push_expr(
    alloc: Global,
    scopes: &Scopes,
    e: &Expr,
    tests: &mut Items<TestOperation>,
) -> Result<(), AllocError>
    ensures { OnOk result (tests.new ≡ tests.old ++ test_postfix (test scopes.now (plain_expr e.now))) }
{
    push_conjunction(alloc, scopes, &e.first, tests)?;
    for (_, part) in e.more.as_slice() {
        push_conjunction(alloc, scopes, part, tests)?;
        tests.push(TestOperation::Or)?;
    }
    Ok(())
}

#[cycle(push)]
fn push_conjunction(
    alloc: Global,
    scopes: &Scopes,
    c: &Conjunction,
    tests: &mut Items<TestOperation>,
) -> Result<(), AllocError>
    ensures { OnOk result (tests.new ≡ tests.old ++ test_postfix (test scopes.now (plain_conjunction c.now))) }
{
    push_equality(alloc, scopes, &c.first, tests)?;
    for (_, part) in c.more.as_slice() {
        push_equality(alloc, scopes, part, tests)?;
        tests.push(TestOperation::And)?;
    }
    Ok(())
}

// Of several marks, which is refused elsewhere, the last one counts.
#[cycle(push)]
fn push_equality(
    alloc: Global,
    scopes: &Scopes,
    e: &Equality,
    tests: &mut Items<TestOperation>,
) -> Result<(), AllocError>
    ensures { OnOk result (tests.new ≡ tests.old ++ test_postfix (test scopes.now (plain_equality e.now))) }
{
    match e.more.as_slice().last() {
        None => push_relation(alloc, scopes, &e.first, tests),
        Some((mark, right)) => {
            let mark = equality_comparison(mark.kind);
            push_comparison(alloc, scopes, mark, &e.first.first, &right.first, tests)
        }
    }
}

#[cycle(push)]
fn push_relation(
    alloc: Global,
    scopes: &Scopes,
    r: &Relation,
    tests: &mut Items<TestOperation>,
) -> Result<(), AllocError>
    ensures { OnOk result (tests.new ≡ tests.old ++ test_postfix (test scopes.now (plain_relation r.now))) }
{
    match r.more.as_slice().last() {
        None => push_sum(alloc, scopes, &r.first, tests),
        Some((mark, right)) => {
            let mark = relation_comparison(mark.kind);
            push_comparison(alloc, scopes, mark, &r.first, right, tests)
        }
    }
}

#[cycle(push)]
fn push_sum(
    alloc: Global,
    scopes: &Scopes,
    s: &Sum,
    tests: &mut Items<TestOperation>,
) -> Result<(), AllocError>
    ensures { OnOk result (tests.new ≡ tests.old ++ test_postfix (test scopes.now (plain_sum s.now))) }
{
    if is_operand(s) {
        push_unary(alloc, scopes, &s.first.first, tests)
    } else {
        push_sum_test(alloc, scopes, s, tests)
    }
}

#[cycle(push)]
fn push_unary(
    alloc: Global,
    scopes: &Scopes,
    u: &Unary,
    tests: &mut Items<TestOperation>,
) -> Result<(), AllocError>
    ensures { OnOk result (tests.new ≡ tests.old ++ test_postfix (test scopes.now (plain_unary u.now))) }
{
    match u {
        Unary::Operator(_, kind, operand) => match kind {
            UnaryKind::Not => {
                push_unary(alloc, scopes, operand.get(), tests)?;
                tests.push(TestOperation::Not)
            }
            UnaryKind::Minus => push_unary_test(alloc, scopes, u, tests),
            UnaryKind::Plus => push_unary_test(alloc, scopes, u, tests),
        },
        Unary::Paren(_, inner) => push_expr(alloc, scopes, inner.get(), tests),
        Unary::Number(_, _) => push_unary_test(alloc, scopes, u, tests),
        Unary::Name(_) => push_unary_test(alloc, scopes, u, tests),
    }
}
