//! Reads statements that hold no others, and the heads of those that do.

ghost use Rattle.std.specs.Prelude.{◌≡◌};
ghost use Rattle.c_tree.specs.inside.Input.{Reads, peek};
ghost use Rattle.c_tree.specs.inside.Simple as simple_spec;
ghost use Rattle.c_tree.specs.inside.Stmt as stmt_spec;

use crate::lists::{handles, local};
use crate::parts::{assign, call, cond, empty_parens, nil};
use crate::simple::{Assign, Cond};
use crate::statements::Statements;
use crate::stmt::{Around, First, Stmt};
use crate::term::Term;
use crate::tokens::Tokens;
use sqlite_items::Boxed;
use std::alloc::Global;
use thr_base::Stop;

pub fn word_end(tokens: &mut Tokens<'_, '_>) -> Result<u32, Stop>
    ensures { Reads (stmt_spec.word_end tokens.old) result tokens.new }
{
    empty_parens(tokens)?;
    tokens.expect(Term::Semicolon)
}

#[tactic(auto, unfolding(crate::specs::inside::Stmt::return_stmt))]
pub fn return_stmt(tokens: &mut Tokens<'_, '_>) -> Result<Stmt, Stop>
    ensures { Reads (stmt_spec.return_stmt tokens.old) result tokens.new }
{
    let from = tokens.take();
    let value = if tokens.sees(Term::Semicolon) {
        None
    } else {
        Some(nil(tokens)?)
    };
    tokens.expect(Term::Semicolon)?;
    Ok(Stmt::Return(from, value))
}

pub fn break_stmt(tokens: &mut Tokens<'_, '_>, around: Around) -> Result<Stmt, Stop>
    ensures { Reads (stmt_spec.break_by around tokens.old) result tokens.new }
{
    match around {
        Around::Nothing => Err(tokens.refuse()),
        Around::Loop => {
            let from = tokens.take();
            tokens.expect(Term::Semicolon)?;
            Ok(Stmt::Break(from))
        }
    }
}

#[tactic(auto, unfolding(crate::specs::inside::Stmt::assign_stmt))]
pub fn assign_stmt(alloc: Global, tokens: &mut Tokens<'_, '_>, levels: u32) -> Result<Stmt, Stop>
    ensures { Reads (stmt_spec.assign_stmt levels tokens.old) result tokens.new }
{
    let part = assign(alloc, tokens, levels)?;
    tokens.expect(Term::Semicolon)?;
    Ok(Stmt::Assign(Boxed::new(alloc, part)?))
}

#[tactic(auto, unfolding(crate::specs::inside::Stmt::call_stmt))]
pub fn call_stmt(alloc: Global, tokens: &mut Tokens<'_, '_>, levels: u32) -> Result<Stmt, Stop>
    ensures { Reads (stmt_spec.call_stmt levels tokens.old) result tokens.new }
{
    let part = call(alloc, tokens, levels)?;
    tokens.expect(Term::Semicolon)?;
    Ok(Stmt::Call(Boxed::new(alloc, part)?))
}

pub fn handles_stmt(alloc: Global, tokens: &mut Tokens<'_, '_>) -> Result<Stmt, Stop>
    ensures { Reads (stmt_spec.handles_stmt tokens.old) result tokens.new }
{
    let part = handles(alloc, tokens)?;
    Ok(Stmt::Handles(Boxed::new(alloc, part)?))
}

#[tactic(auto, unfolding(crate::specs::inside::Stmt::local_stmt))]
pub fn local_stmt(alloc: Global, tokens: &mut Tokens<'_, '_>, levels: u32) -> Result<Stmt, Stop>
    ensures { Reads (stmt_spec.local_stmt levels tokens.old) result tokens.new }
{
    let part = local(alloc, tokens, levels)?;
    Ok(Stmt::Local(Boxed::new(alloc, part)?))
}

#[tactic(auto, unfolding(crate::specs::inside::Stmt::first_local))]
fn first_local(alloc: Global, tokens: &mut Tokens<'_, '_>, levels: u32) -> Result<First, Stop>
    ensures { Reads (stmt_spec.first_local levels tokens.old) result tokens.new }
{
    Ok(First::Local(local(alloc, tokens, levels)?))
}

#[tactic(auto, unfolding(crate::specs::inside::Stmt::first_assign))]
fn first_assign(alloc: Global, tokens: &mut Tokens<'_, '_>, levels: u32) -> Result<First, Stop>
    ensures { Reads (stmt_spec.first_assign levels tokens.old) result tokens.new }
{
    let part = assign(alloc, tokens, levels)?;
    tokens.expect(Term::Semicolon)?;
    Ok(First::Assign(part))
}

#[tactic(auto, unfolding(crate::specs::inside::Stmt::first_part))]
fn first_of(alloc: Global, tokens: &mut Tokens<'_, '_>, levels: u32) -> Result<First, Stop>
    ensures { Reads (stmt_spec.first_part levels tokens.old) result tokens.new }
{
    match tokens.peek() {
        Term::Static | Term::Volatile | Term::Extern | Term::Int | Term::Long => {
            first_local(alloc, tokens, levels)
        }
        Term::Semicolon => Ok(First::Empty(tokens.take())),
        _ => first_assign(alloc, tokens, levels),
    }
}

pub fn first_part(
    alloc: Global,
    tokens: &mut Tokens<'_, '_>,
    levels: u32,
) -> Result<Boxed<First>, Stop>
    ensures { Reads (stmt_spec.first_part levels tokens.old) result tokens.new }
{
    let part = first_of(alloc, tokens, levels)?;
    Ok(Boxed::new(alloc, part)?)
}

fn boxed_cond(alloc: Global, tokens: &mut Tokens<'_, '_>, levels: u32) -> Result<Boxed<Cond>, Stop>
    ensures { Reads (simple_spec.cond levels tokens.old) result tokens.new }
{
    let part = cond(alloc, tokens, levels)?;
    Ok(Boxed::new(alloc, part)?)
}

fn boxed_assign(
    alloc: Global,
    tokens: &mut Tokens<'_, '_>,
    levels: u32,
) -> Result<Boxed<Assign>, Stop>
    ensures { Reads (simple_spec.assign levels tokens.old) result tokens.new }
{
    let part = assign(alloc, tokens, levels)?;
    Ok(Boxed::new(alloc, part)?)
}

#[tactic(auto, unfolding(crate::specs::inside::Stmt::middle_part))]
pub fn middle_part(
    alloc: Global,
    tokens: &mut Tokens<'_, '_>,
    levels: u32,
) -> Result<Option<Boxed<Cond>>, Stop>
    ensures { Reads (stmt_spec.middle_part levels tokens.old) result tokens.new }
{
    if tokens.sees(Term::Semicolon) {
        Ok(None)
    } else {
        Ok(Some(boxed_cond(alloc, tokens, levels)?))
    }
}

#[tactic(auto, unfolding(crate::specs::inside::Stmt::last_part))]
pub fn last_part(
    alloc: Global,
    tokens: &mut Tokens<'_, '_>,
    levels: u32,
) -> Result<Option<Boxed<Assign>>, Stop>
    ensures { Reads (stmt_spec.last_part levels tokens.old) result tokens.new }
{
    if tokens.sees(Term::RightParen) {
        Ok(None)
    } else {
        Ok(Some(boxed_assign(alloc, tokens, levels)?))
    }
}

#[tactic(auto, unfolding(crate::specs::inside::Stmt::condition))]
pub fn condition(
    alloc: Global,
    tokens: &mut Tokens<'_, '_>,
    levels: u32,
) -> Result<Boxed<Cond>, Stop>
    ensures { Reads (stmt_spec.condition levels tokens.old) result tokens.new }
{
    tokens.expect(Term::LeftParen)?;
    let part = boxed_cond(alloc, tokens, levels)?;
    tokens.expect(Term::RightParen)?;
    Ok(part)
}

fn begins(around: Around, term: Term) -> bool
    ensures { result ≡ stmt_spec.begins around term }
{
    match term {
        Term::LeftBrace
        | Term::Semicolon
        | Term::Static
        | Term::Volatile
        | Term::Extern
        | Term::Int
        | Term::Long
        | Term::Name
        | Term::Increment
        | Term::Decrement
        | Term::If
        | Term::While
        | Term::For
        | Term::Return
        | Term::Assert
        | Term::Assume
        | Term::ReachError
        | Term::Abort
        | Term::Exit
        | Term::MutexLock
        | Term::MutexUnlock
        | Term::MutexDestroy
        | Term::MutexInit
        | Term::Create
        | Term::Join
        | Term::AtomicBegin
        | Term::HandleType => true,
        Term::Break => match around {
            Around::Loop => true,
            Around::Nothing => false,
        },
        _ => false,
    }
}

/// Where no further level may be opened.
#[tactic(auto, unfolding(crate::specs::inside::Stmt::no_stmt))]
pub fn no_stmt(tokens: &mut Tokens<'_, '_>, around: Around) -> Result<Stmt, Stop>
    ensures { Reads (stmt_spec.no_stmt around tokens.old) result tokens.new }
{
    if begins(around, tokens.peek()) {
        Err(tokens.refuse_deep())
    } else {
        Err(tokens.refuse())
    }
}

/// A statement, with at most `levels` levels of statements, this one included.
pub fn stmt(
    alloc: Global,
    tokens: &mut Tokens<'_, '_>,
    levels: u32,
    around: Around,
) -> Result<Stmt, Stop>
    ensures { Reads (stmt_spec.stmt levels around tokens.old) result tokens.new }
{
    if levels == 0 {
        return no_stmt(tokens, around);
    }
    Statements {
        alloc,
        levels: levels - 1,
        stmt,
    }
    .stmt(tokens, around)
}
