//! Reads the items of a text.

ghost use Rattle.std.specs.Prelude.{◌≡◌};
ghost use Rattle.c_tree.specs.inside.Chain.{more_of};
ghost use Rattle.c_tree.specs.inside.Input.{Reads};
ghost use Rattle.c_tree.specs.inside.Item as spec;
ghost use Rattle.c_tree.specs.inside.Many.{many};
ghost use Rattle.c_tree.specs.inside.Simple as simple_spec;

use crate::heads::stmt;
use crate::item::{
    Body, Errfn, Globals, Gname, Item, Locks, Mainfn, Mname, Proto, Start, Threadfn, Typed, Untyped,
};
use crate::lists::{comma_mark, handles, itype, quals};
use crate::more::more_of;
use crate::operand::{name, number};
use crate::skips::skip_through;
use crate::statements::Statements;
use crate::stmt::{Around, Block};
use crate::term::Term;
use crate::tokens::Tokens;
use sqlite_items::Items;
use std::alloc::Global;
use thr_base::{MOST_LEVELS, Stop};

#[tactic(auto, unfolding(crate::specs::inside::Item::body))]
fn body(alloc: Global, tokens: &mut Tokens<'_, '_>) -> Result<Block, Stop>
    ensures { Reads (spec.body spec.max_levels tokens.old) result tokens.new }
{
    Statements {
        alloc,
        levels: MOST_LEVELS,
        stmt,
    }
    .block(tokens, Around::Nothing)
}

#[tactic(auto, unfolding(crate::specs::inside::Item::start_number))]
fn start_number(tokens: &mut Tokens<'_, '_>) -> Result<Start, Stop>
    ensures { Reads (spec.start_number tokens.old) result tokens.new }
{
    let from = tokens.place();
    let is_negative = tokens.eat(Term::Minus);
    let value = number(tokens)?;
    Ok(Start {
        from,
        is_negative,
        value,
    })
}

#[tactic(auto, unfolding(crate::specs::inside::Item::gname))]
fn gname(alloc: Global, tokens: &mut Tokens<'_, '_>) -> Result<Gname, Stop>
    ensures { Reads (spec.gname tokens.old) result tokens.new }
{
    let name = name(alloc, tokens)?;
    let start = if tokens.eat(Term::Assign) {
        Some(start_number(tokens)?)
    } else {
        None
    };
    Ok(Gname { name, start })
}

fn more_gnames(alloc: Global, tokens: &mut Tokens<'_, '_>) -> Result<Items<(u32, Gname)>, Stop>
    ensures { Reads (more_of simple_spec.comma_mark spec.gname tokens.old) result tokens.new }
{
    more_of!(alloc, comma_mark(tokens), gname(alloc, tokens))
}

#[tactic(auto, unfolding(crate::specs::inside::Item::globals))]
fn globals(alloc: Global, tokens: &mut Tokens<'_, '_>) -> Result<Globals, Stop>
    ensures { Reads (spec.globals tokens.old) result tokens.new }
{
    let first = gname(alloc, tokens)?;
    let more = more_gnames(alloc, tokens)?;
    tokens.expect(Term::Semicolon)?;
    Ok(Globals { first, more })
}

#[tactic(auto, unfolding(crate::specs::inside::Item::mname))]
fn mname(alloc: Global, tokens: &mut Tokens<'_, '_>) -> Result<Mname, Stop>
    ensures { Reads (spec.mname tokens.old) result tokens.new }
{
    let name = name(alloc, tokens)?;
    let is_started = if tokens.eat(Term::Assign) {
        tokens.expect(Term::MutexStart)?;
        true
    } else {
        false
    };
    Ok(Mname { name, is_started })
}

fn more_mnames(alloc: Global, tokens: &mut Tokens<'_, '_>) -> Result<Items<(u32, Mname)>, Stop>
    ensures { Reads (more_of simple_spec.comma_mark spec.mname tokens.old) result tokens.new }
{
    more_of!(alloc, comma_mark(tokens), mname(alloc, tokens))
}

#[tactic(auto, unfolding(crate::specs::inside::Item::locks))]
fn locks(alloc: Global, tokens: &mut Tokens<'_, '_>) -> Result<Locks, Stop>
    ensures { Reads (spec.locks tokens.old) result tokens.new }
{
    let from = tokens.expect(Term::MutexType)?;
    let first = mname(alloc, tokens)?;
    let more = more_mnames(alloc, tokens)?;
    tokens.expect(Term::Semicolon)?;
    Ok(Locks { from, first, more })
}

#[tactic(auto, unfolding(crate::specs::inside::Item::proto_end))]
fn proto_end(tokens: &mut Tokens<'_, '_>, from: u32) -> Result<Proto, Stop>
    ensures { Reads (spec.proto_end from tokens.old) result tokens.new }
{
    tokens.expect(Term::Semicolon)?;
    Ok(Proto { from })
}

#[tactic(auto, unfolding(crate::specs::inside::Item::skipped_parens))]
fn skipped_parens(alloc: Global, tokens: &mut Tokens<'_, '_>) -> Result<(), Stop>
    ensures { Reads (spec.skipped_parens tokens.old) result tokens.new }
{
    tokens.expect(Term::LeftParen)?;
    skip_through(alloc, tokens, Term::RightParen)
}

#[tactic(auto, unfolding(crate::specs::inside::Item::proto))]
fn proto(alloc: Global, tokens: &mut Tokens<'_, '_>) -> Result<Proto, Stop>
    ensures { Reads (spec.proto tokens.old) result tokens.new }
{
    let from = tokens.take();
    skipped_parens(alloc, tokens)?;
    proto_end(tokens, from)
}

#[tactic(auto, unfolding(crate::specs::inside::Item::error_fn))]
fn error_fn(alloc: Global, tokens: &mut Tokens<'_, '_>) -> Result<Untyped, Stop>
    ensures { Reads (spec.error_fn tokens.old) result tokens.new }
{
    let from = tokens.take();
    skipped_parens(alloc, tokens)?;
    if tokens.sees(Term::LeftBrace) {
        tokens.expect(Term::LeftBrace)?;
        skip_through(alloc, tokens, Term::RightBrace)?;
        Ok(Untyped::Errfn(Errfn { from }))
    } else {
        Ok(Untyped::Proto(proto_end(tokens, from)?))
    }
}

#[tactic(auto, unfolding(crate::specs::inside::Item::main_fn))]
fn main_fn(alloc: Global, tokens: &mut Tokens<'_, '_>) -> Result<Mainfn, Stop>
    ensures { Reads (spec.main_fn spec.max_levels tokens.old) result tokens.new }
{
    let from = tokens.take();
    tokens.expect(Term::LeftParen)?;
    tokens.eat(Term::Void);
    tokens.expect(Term::RightParen)?;
    let body = body(alloc, tokens)?;
    Ok(Mainfn { from, body })
}

// What may stand behind the `*` of a parameter.
fn skip_name(alloc: Global, tokens: &mut Tokens<'_, '_>, is_pointer: bool) -> Result<(), Stop>
    ensures { Reads (spec.pointer_if is_pointer tokens.old) result tokens.new }
{
    if is_pointer && tokens.sees(Term::Name) {
        name(alloc, tokens)?;
    }
    Ok(())
}

fn skip_pointer(alloc: Global, tokens: &mut Tokens<'_, '_>, is_void: bool) -> Result<(), Stop>
    ensures { Reads (spec.void_if is_void tokens.old) result tokens.new }
{
    if !is_void {
        return Ok(());
    }
    let is_pointer = tokens.eat(Term::Star);
    skip_name(alloc, tokens, is_pointer)
}

#[tactic(auto, unfolding(crate::specs::inside::Item::parameter))]
fn parameter(alloc: Global, tokens: &mut Tokens<'_, '_>) -> Result<(), Stop>
    ensures { Reads (spec.parameter tokens.old) result tokens.new }
{
    tokens.expect(Term::LeftParen)?;
    let is_void = tokens.eat(Term::Void);
    skip_pointer(alloc, tokens, is_void)?;
    tokens.expect(Term::RightParen)?;
    Ok(())
}

#[tactic(auto, unfolding(crate::specs::inside::Item::thread_fn))]
fn thread_fn(alloc: Global, tokens: &mut Tokens<'_, '_>) -> Result<Threadfn, Stop>
    ensures { Reads (spec.thread_fn spec.max_levels tokens.old) result tokens.new }
{
    let name = name(alloc, tokens)?;
    parameter(alloc, tokens)?;
    let body = if tokens.eat(Term::Semicolon) {
        None
    } else {
        Some(body(alloc, tokens)?)
    };
    Ok(Threadfn { name, body })
}

fn is_profile(term: Term) -> bool
    ensures { result ≡ spec.is_profile term }
{
    matches!(
        term,
        Term::Nondet
            | Term::Assume
            | Term::AtomicBegin
            | Term::AtomicEnd
            | Term::Assert
            | Term::ReachError
            | Term::Abort
            | Term::Create
            | Term::Join
            | Term::Exit
            | Term::MutexInit
            | Term::MutexDestroy
            | Term::MutexLock
            | Term::MutexUnlock
    )
}

#[tactic(auto, unfolding(crate::specs::inside::Item::profile_proto))]
fn profile_proto(alloc: Global, tokens: &mut Tokens<'_, '_>) -> Result<Proto, Stop>
    ensures { Reads (spec.profile_proto tokens.old) result tokens.new }
{
    if is_profile(tokens.peek()) {
        proto(alloc, tokens)
    } else {
        Err(tokens.refuse())
    }
}

#[tactic(auto, unfolding(crate::specs::inside::Item::typed))]
fn typed(alloc: Global, tokens: &mut Tokens<'_, '_>) -> Result<Typed, Stop>
    ensures { Reads (spec.typed spec.max_levels tokens.old) result tokens.new }
{
    match tokens.peek() {
        Term::Name => Ok(Typed::Globals(globals(alloc, tokens)?)),
        Term::Main => Ok(Typed::Main(main_fn(alloc, tokens)?)),
        _ => Ok(Typed::Proto(profile_proto(alloc, tokens)?)),
    }
}

#[tactic(auto, unfolding(crate::specs::inside::Item::untyped))]
fn untyped(alloc: Global, tokens: &mut Tokens<'_, '_>) -> Result<Untyped, Stop>
    ensures { Reads (spec.untyped spec.max_levels tokens.old) result tokens.new }
{
    match tokens.peek() {
        Term::Star => {
            tokens.take();
            Ok(Untyped::Thread(thread_fn(alloc, tokens)?))
        }
        Term::ReachError => error_fn(alloc, tokens),
        _ => Ok(Untyped::Proto(profile_proto(alloc, tokens)?)),
    }
}

#[tactic(auto, unfolding(crate::specs::inside::Item::typed_body))]
fn typed_body(alloc: Global, tokens: &mut Tokens<'_, '_>) -> Result<Body, Stop>
    ensures { Reads (spec.typed_body spec.max_levels tokens.old) result tokens.new }
{
    let kind = itype(tokens)?;
    Ok(Body::Typed(kind, typed(alloc, tokens)?))
}

#[tactic(auto, unfolding(crate::specs::inside::Item::void_body))]
fn void_body(alloc: Global, tokens: &mut Tokens<'_, '_>) -> Result<Body, Stop>
    ensures { Reads (spec.void_body spec.max_levels tokens.old) result tokens.new }
{
    let from = tokens.take();
    Ok(Body::Void(from, untyped(alloc, tokens)?))
}

#[tactic(auto, unfolding(crate::specs::inside::Item::item_body))]
fn item_body(alloc: Global, tokens: &mut Tokens<'_, '_>) -> Result<Body, Stop>
    ensures { Reads (spec.item_body spec.max_levels tokens.old) result tokens.new }
{
    match tokens.peek() {
        Term::Int | Term::Long => typed_body(alloc, tokens),
        Term::Void => void_body(alloc, tokens),
        Term::MutexType => Ok(Body::Locks(locks(alloc, tokens)?)),
        Term::HandleType => Ok(Body::Handles(handles(alloc, tokens)?)),
        _ => Err(tokens.refuse()),
    }
}

#[tactic(auto, unfolding(crate::specs::inside::Item::item))]
fn item(alloc: Global, tokens: &mut Tokens<'_, '_>) -> Result<Item, Stop>
    ensures { Reads (spec.item spec.max_levels tokens.old) result tokens.new }
{
    let from = tokens.place();
    let quals = quals(alloc, tokens)?;
    let body = item_body(alloc, tokens)?;
    Ok(Item { from, quals, body })
}

pub fn items(alloc: Global, tokens: &mut Tokens<'_, '_>) -> Result<Items<Item>, Stop>
    ensures { Reads (many Term.End (spec.item spec.max_levels) tokens.old) result tokens.new }
{
    let mut all = Items::new(alloc);
    'items: while !tokens.sees(Term::End) {
        let item = item(alloc, tokens)?;
        all.push(item)?;
    }
    Ok(all)
}
