//! Reads what statements are made of.

ghost use Rattle.std.specs.Prelude.{◌≡◌};
ghost use Rattle.c_tree.specs.inside.Chain.{more_of, mark_at, past};
ghost use Rattle.c_tree.specs.inside.Expr as expr_spec;
ghost use Rattle.c_tree.specs.inside.Simple as spec;
ghost use Rattle.c_tree.specs.inside.Input.{Reads, peek, bytes};

use crate::expr::{Expr, Name};
use crate::levels::Levels;
use crate::operand::{name, unary};
use crate::simple::{Assign, Call, Cond, Lname, Nil, Nondet, Right};
use crate::term::Term;
use crate::tokens::Tokens;
use std::alloc::Global;
use thr_base::Stop;

pub fn expr(alloc: Global, tokens: &mut Tokens<'_, '_>, levels: u32) -> Result<Expr, Stop>
    ensures { Reads (expr_spec.expr levels tokens.old) result tokens.new }
{
    Levels {
        alloc,
        levels,
        unary,
    }
    .expr(tokens)
}

pub fn empty_parens(tokens: &mut Tokens<'_, '_>) -> Result<u32, Stop>
    ensures { Reads (spec.empty_parens tokens.old) result tokens.new }
{
    tokens.expect(Term::LeftParen)?;
    tokens.expect(Term::RightParen)
}

#[tactic(auto, unfolding(crate::specs::inside::Simple::nondet))]
fn nondet(tokens: &mut Tokens<'_, '_>) -> Result<Nondet, Stop>
    ensures { Reads (spec.nondet tokens.old) result tokens.new }
{
    let from = tokens.expect(Term::Nondet)?;
    empty_parens(tokens)?;
    Ok(Nondet { from })
}

fn is_zero(tokens: &Tokens<'_, '_>) -> bool
    ensures { result ≡ spec.is_zero (peek tokens.now) (bytes tokens.now) }
{
    match tokens.peek() {
        Term::Number => tokens.text().as_bytes() == b"0".as_slice(),
        _ => false,
    }
}

#[tactic(auto, unfolding(crate::specs::inside::Simple::nil))]
pub fn nil(tokens: &mut Tokens<'_, '_>) -> Result<Nil, Stop>
    ensures { Reads (spec.nil tokens.old) result tokens.new }
{
    if is_zero(tokens) {
        Ok(Nil::Zero(tokens.take()))
    } else {
        Ok(Nil::Null(tokens.expect(Term::Null)?))
    }
}

#[tactic(auto, unfolding(crate::specs::inside::Simple::address))]
pub fn address(alloc: Global, tokens: &mut Tokens<'_, '_>) -> Result<Name, Stop>
    ensures { Reads (spec.address tokens.old) result tokens.new }
{
    tokens.expect(Term::Address)?;
    name(alloc, tokens)
}

#[tactic(auto, unfolding(crate::specs::inside::Simple::right))]
pub fn right(alloc: Global, tokens: &mut Tokens<'_, '_>, levels: u32) -> Result<Right, Stop>
    ensures { Reads (spec.right levels tokens.old) result tokens.new }
{
    match tokens.peek() {
        Term::Nondet => Ok(Right::Nondet(nondet(tokens)?)),
        _ => Ok(Right::Expr(expr(alloc, tokens, levels)?)),
    }
}

#[tactic(auto, unfolding(crate::specs::inside::Simple::cond))]
pub fn cond(alloc: Global, tokens: &mut Tokens<'_, '_>, levels: u32) -> Result<Cond, Stop>
    ensures { Reads (spec.cond levels tokens.old) result tokens.new }
{
    match tokens.peek() {
        Term::Nondet => Ok(Cond::Nondet(nondet(tokens)?)),
        _ => Ok(Cond::Expr(expr(alloc, tokens, levels)?)),
    }
}

#[tactic(auto, unfolding(crate::specs::inside::Simple::assigned))]
fn assigned(alloc: Global, tokens: &mut Tokens<'_, '_>, levels: u32) -> Result<Assign, Stop>
    ensures { Reads (spec.assigned levels tokens.old) result tokens.new }
{
    let x = name(alloc, tokens)?;
    match tokens.peek() {
        Term::Assign => {
            tokens.take();
            Ok(Assign::Set(x, right(alloc, tokens, levels)?))
        }
        Term::AddTo => {
            tokens.take();
            Ok(Assign::Add(x, expr(alloc, tokens, levels)?))
        }
        Term::SubtractFrom => {
            tokens.take();
            Ok(Assign::Subtract(x, expr(alloc, tokens, levels)?))
        }
        Term::Increment => {
            tokens.take();
            Ok(Assign::Increment(x))
        }
        Term::Decrement => {
            tokens.take();
            Ok(Assign::Decrement(x))
        }
        _ => Err(tokens.refuse()),
    }
}

#[tactic(auto, unfolding(crate::specs::inside::Simple::assign))]
pub fn assign(alloc: Global, tokens: &mut Tokens<'_, '_>, levels: u32) -> Result<Assign, Stop>
    ensures { Reads (spec.assign levels tokens.old) result tokens.new }
{
    match tokens.peek() {
        Term::Name => assigned(alloc, tokens, levels),
        Term::Increment => {
            let from = tokens.take();
            Ok(Assign::IncrementFirst(from, name(alloc, tokens)?))
        }
        Term::Decrement => {
            let from = tokens.take();
            Ok(Assign::DecrementFirst(from, name(alloc, tokens)?))
        }
        _ => Err(tokens.refuse()),
    }
}

#[tactic(auto, unfolding(crate::specs::inside::Simple::argument))]
fn argument(alloc: Global, tokens: &mut Tokens<'_, '_>, levels: u32) -> Result<Expr, Stop>
    ensures { Reads (spec.argument levels tokens.old) result tokens.new }
{
    tokens.expect(Term::LeftParen)?;
    let e = expr(alloc, tokens, levels)?;
    tokens.expect(Term::RightParen)?;
    Ok(e)
}

#[tactic(auto, unfolding(crate::specs::inside::Simple::lock_argument))]
fn lock_argument(alloc: Global, tokens: &mut Tokens<'_, '_>) -> Result<Name, Stop>
    ensures { Reads (spec.lock_argument tokens.old) result tokens.new }
{
    tokens.expect(Term::LeftParen)?;
    let m = address(alloc, tokens)?;
    tokens.expect(Term::RightParen)?;
    Ok(m)
}

#[tactic(auto, unfolding(crate::specs::inside::Simple::exit_argument))]
fn exit_argument(tokens: &mut Tokens<'_, '_>) -> Result<Nil, Stop>
    ensures { Reads (spec.exit_argument tokens.old) result tokens.new }
{
    tokens.expect(Term::LeftParen)?;
    let n = nil(tokens)?;
    tokens.expect(Term::RightParen)?;
    Ok(n)
}

#[tactic(auto, unfolding(crate::specs::inside::Simple::init))]
fn init(alloc: Global, tokens: &mut Tokens<'_, '_>, from: u32) -> Result<Call, Stop>
    ensures { Reads (spec.init from tokens.old) result tokens.new }
{
    tokens.expect(Term::LeftParen)?;
    let m = address(alloc, tokens)?;
    tokens.expect(Term::Comma)?;
    let n = nil(tokens)?;
    tokens.expect(Term::RightParen)?;
    Ok(Call::Init(from, m, n))
}

#[tactic(auto, unfolding(crate::specs::inside::Simple::create))]
fn create(alloc: Global, tokens: &mut Tokens<'_, '_>, from: u32) -> Result<Call, Stop>
    ensures { Reads (spec.create from tokens.old) result tokens.new }
{
    tokens.expect(Term::LeftParen)?;
    let t = address(alloc, tokens)?;
    tokens.expect(Term::Comma)?;
    let a = nil(tokens)?;
    tokens.expect(Term::Comma)?;
    let f = name(alloc, tokens)?;
    tokens.expect(Term::Comma)?;
    let x = nil(tokens)?;
    tokens.expect(Term::RightParen)?;
    Ok(Call::Create(from, t, a, f, x))
}

#[tactic(auto, unfolding(crate::specs::inside::Simple::join))]
fn join(alloc: Global, tokens: &mut Tokens<'_, '_>, from: u32) -> Result<Call, Stop>
    ensures { Reads (spec.join from tokens.old) result tokens.new }
{
    tokens.expect(Term::LeftParen)?;
    let t = name(alloc, tokens)?;
    tokens.expect(Term::Comma)?;
    let n = nil(tokens)?;
    tokens.expect(Term::RightParen)?;
    Ok(Call::Join(from, t, n))
}

#[tactic(auto, unfolding(crate::specs::inside::Simple::lname))]
pub fn lname(alloc: Global, tokens: &mut Tokens<'_, '_>, levels: u32) -> Result<Lname, Stop>
    ensures { Reads (spec.lname levels tokens.old) result tokens.new }
{
    let name = name(alloc, tokens)?;
    let start = if tokens.eat(Term::Assign) {
        Some(right(alloc, tokens, levels)?)
    } else {
        None
    };
    Ok(Lname { name, start })
}

#[tactic(auto, unfolding(crate::specs::inside::Simple::call))]
pub fn call(alloc: Global, tokens: &mut Tokens<'_, '_>, levels: u32) -> Result<Call, Stop>
    ensures { Reads (spec.call levels tokens.old) result tokens.new }
{
    match tokens.peek() {
        Term::Assert => Ok(Call::Assert(tokens.take(), argument(alloc, tokens, levels)?)),
        Term::Assume => Ok(Call::Assume(tokens.take(), argument(alloc, tokens, levels)?)),
        Term::ReachError => {
            let from = tokens.take();
            empty_parens(tokens)?;
            Ok(Call::ReachError(from))
        }
        Term::Abort => {
            let from = tokens.take();
            empty_parens(tokens)?;
            Ok(Call::Abort(from))
        }
        Term::Exit => Ok(Call::Exit(tokens.take(), exit_argument(tokens)?)),
        Term::MutexLock => Ok(Call::Lock(tokens.take(), lock_argument(alloc, tokens)?)),
        Term::MutexUnlock => Ok(Call::Unlock(tokens.take(), lock_argument(alloc, tokens)?)),
        Term::MutexDestroy => Ok(Call::Destroy(tokens.take(), lock_argument(alloc, tokens)?)),
        Term::MutexInit => {
            let from = tokens.take();
            init(alloc, tokens, from)
        }
        Term::Create => {
            let from = tokens.take();
            create(alloc, tokens, from)
        }
        Term::Join => {
            let from = tokens.take();
            join(alloc, tokens, from)
        }
        _ => Err(tokens.refuse()),
    }
}
