ghost use Rattle.std.specs.Prelude.{◌≤◌, length, IfOk};
ghost use Rattle.thr_base.specs.Limits.{text_limit};
ghost use Rattle.c_tree.specs.declared.item.Tree.{Tree};
ghost use Rattle.thread_cfg.specs.Read.{IsPlanOfText};

use crate::counter::count_locations;
use crate::going::block_ways;
use crate::located::{function_places, location_places};
use crate::part::Part;
use crate::pass::parts_of_code;
use crate::paths::Ways;
use c_check::{
    Assignment, Comparison, Condition, Function, Instruction, Mark, Operation, Plan, TestOperation,
    Variable, check,
};
use c_lex::lex;
use c_tree::parse_tokens;
use sqlite_items::Items;
use std::alloc::{AllocError, Global};
use std::test::*;
use thr_base::{Loc, Stop, TEXT_LIMIT, ThreadNo};

fn value_of(alloc: Global, variable: usize) -> Result<Items<Operation>, AllocError> {
    Items::from_slice(alloc, &[Operation::Value(Variable::Shared(variable))])
}

fn number(alloc: Global, number: i128) -> Result<Items<Operation>, AllocError> {
    Items::from_slice(alloc, &[Operation::Number(number)])
}

// A variable is compared with 1.
fn comparison(
    alloc: Global,
    from: u32,
    variable: usize,
    mark: Mark,
) -> Result<TestOperation, AllocError> {
    Ok(TestOperation::Compare(Comparison {
        from,
        mark,
        left: value_of(alloc, variable)?,
        right: number(alloc, 1)?,
    }))
}

// x < 1 && y == 1
fn both(alloc: Global) -> Result<Items<TestOperation>, AllocError> {
    let mut tests = Items::new(alloc);
    tests.push(comparison(alloc, 11, 0, Mark::Less)?)?;
    tests.push(comparison(alloc, 12, 1, Mark::Equal)?)?;
    tests.push(TestOperation::And)?;
    Ok(tests)
}

// x = y + y, which reads y twice
fn doubled(alloc: Global) -> Result<Instruction, AllocError> {
    let y = Operation::Value(Variable::Shared(1));
    Ok(Instruction::Assign(Assignment {
        from: 30,
        at: 31,
        variable: Variable::Shared(0),
        value: Items::from_slice(alloc, &[y, y, Operation::Add])?,
    }))
}

// while (x < 1 && y == 1) { if (*) break; x = y + y; }
fn a_loop(alloc: Global) -> Result<Items<Instruction>, AllocError> {
    let mut code = Items::new(alloc);
    code.push(Instruction::Loop(10, Condition::Test(11, both(alloc)?)))?;
    code.push(Instruction::If(20, Condition::Choice(21)))?;
    code.push(Instruction::Break(22))?;
    code.push(Instruction::Else)?;
    code.push(Instruction::EndIf)?;
    code.push(doubled(alloc)?)?;
    code.push(Instruction::Last)?;
    code.push(Instruction::EndLoop)?;
    Ok(code)
}

// Where a part leads, twice where there is one way.
fn leads(part: &Part<'_>) -> (u32, u32) {
    match part {
        Part::Compare(_, Some(on_true), Some(on_false)) => (on_true.0, on_false.0),
        Part::Choice(_, on_true, on_false) => (on_true.0, on_false.0),
        Part::Jump(_, to) => (to.0, to.0),
        Part::Assign(_, next) => (next.0, next.0),
        Part::Block(_, _, next) => (next.0, next.0),
        _ => (0, 0),
    }
}

#[test]
fn where_the_parts_of_a_loop_lead(rt: HostRuntime) -> Result<(), Fail> {
    let code = a_loop(rt.alloc())?;
    let counted = count_locations(rt.alloc(), code.as_slice())?;
    let Some(counter) = counted else {
        return Err("counted")?;
    };
    assert_eq!(rt; counter.at, 8);
    let parts = parts_of_code(rt.alloc(), code.as_slice(), Loc(counter.at), counter.loops)?;
    let mut found = Vec::new(rt.alloc());
    for part in parts.as_slice() {
        found.push(leads(part))?;
    }
    found.reverse();
    let wanted = [(2, 8), (3, 8), (4, 5), (8, 8), (1, 1)];
    assert!(rt; found.as_slice() == wanted.as_slice());
    Ok(())
}

#[test]
fn places_of_a_loop(rt: HostRuntime) -> Result<(), Fail> {
    let function = Function {
        from: 1,
        locals: 0,
        temporaries: 2,
        body: a_loop(rt.alloc())?,
    };
    let places = function_places(rt.alloc(), &function)?;
    assert_eq!(rt; places.as_slice(), [11, 12, 21, 22, 30, 30, 30].as_slice());
    Ok(())
}

// The first thread's actions stand at the comparison, and twice at the assignment, which reads x first.
const TWO_THREADS: &str =
    "int x; void *f(void *a) { while (x < 1) x = x + 1; } void *g(void *a) { x = 2; } int main() { pthread_t t; pthread_create(&t, 0, f, 0); pthread_create(&t, 0, g, 0); return 0; }";

fn plan_of(alloc: Global, text: &str) -> Result<Plan, Stop>
    requires { length text.now ≤ text_limit }
    ensures { IfOk result (λ plan. (tree : Tree) × IsPlanOfText text.now tree plan) }
{
    let tokens = lex(alloc, text)?;
    let tree = parse_tokens(alloc, text, &tokens)?;
    check(alloc, &tree)
}

#[test]
fn places_of_two_threads(rt: HostRuntime) -> Result<(), Fail> {
    let alloc = rt.alloc();
    let text = TWO_THREADS;
    if text.len() > TEXT_LIMIT as usize {
        return Err("too long")?;
    }
    let Ok(plan) = plan_of(alloc, text) else {
        return Err("refused")?;
    };
    if plan.threads.len() < 2 {
        return Err("one thread")?;
    }
    let places = location_places(alloc, &plan, ThreadNo(1))?;
    assert_eq!(rt; places.as_slice(), [33, 40, 40].as_slice());
    let others = location_places(alloc, &plan, ThreadNo(2))?;
    assert_eq!(rt; others.as_slice(), [72].as_slice());
    Ok(())
}

// if (x < 1 && y == 1) x = y + y; and nothing else: the two sides of `==` that fail are two paths.
#[test]
fn paths_of_a_block(rt: HostRuntime) -> Result<(), Fail> {
    let alloc = rt.alloc();
    let mut code = Items::new(alloc);
    code.push(Instruction::If(10, Condition::Test(11, both(alloc)?)))?;
    code.push(doubled(alloc)?)?;
    code.push(Instruction::Else)?;
    code.push(Instruction::EndIf)?;
    let ways = block_ways(alloc, code.as_slice())?;
    let mut lengths = Vec::new(alloc);
    if let Ways::Few(paths) = &ways {
        for path in paths.as_slice() {
            lengths.push(path.events.len())?;
        }
    }
    assert_eq!(rt; lengths.as_slice(), [3, 2, 2, 1].as_slice());
    Ok(())
}
