//! The body of `main`: the threads that it creates, and the form that it has.

ghost use Rattle.std.specs.Prelude.{◌≡◌, ◌++◌, ◌≤◌, length, map, drop, if◌then◌else◌, Some, None, IfOk, OnOk};
ghost use Rattle.thr_base.specs.Limits.{most_threads};
ghost use Rattle.c_tree.specs.Plain as plain;
ghost use Rattle.c_tree.specs.Seen.{plain_block, plain_call, plain_stmt, plain_stmts};
ghost use Rattle.c_check.specs.Scope.{open_scope};
ghost use Rattle.c_check.specs.Resolve as resolve;
ghost use Rattle.c_check.specs.Program as program;
ghost use Rattle.c_check.specs.declared.main_form.Phase.TheVariants.{Creating};
ghost use Rattle.c_check.specs.First.{first_of};
ghost use Rattle.c_check.specs.inside.Found.{stmts_found, together};
ghost use Rattle.c_check.specs.inside.Main.{creation_in, stored_creation, too_many_of};

use crate::body::Body;
use crate::first::earlier;
use crate::lookups::function;
use crate::place::Place;
use crate::scopes::Scopes;
use c_tree::{Block, Call, Stmt};
use sqlite_items::Items;
use std::alloc::{AllocError, Global};
use thr_base::{BAD_MAIN, MOST_THREADS, Refusal, TOO_MANY};

/// What the statements of `main` do, in this order: they create threads, join them, and end.
#[derive(Clone, Copy, Debug, PartialEq, Eq)]
pub enum Phase {
    Creating,
    Joining,
    Ended,
}

/// A creation of a thread.
#[derive(Clone, Copy, Debug, PartialEq, Eq)]
pub struct Creation {
    /// Where its function is named.
    pub from: u32,
    /// The number of its function.
    pub function: usize,
}

/// What is found of the body of `main`.
#[derive(Drop)]
pub struct MainBody {
    /// The numbers of the functions that threads are created of.
    pub created: Items<usize>,
    /// The first rule that is broken.
    pub refusal: Option<Refusal>,
}

fn phase_of_call(c: &Call) -> Option<Phase>
    ensures { result ≡ program.phase_of (plain.Stmt.Calls (plain_call c.now)) }
{
    match c {
        Call::Assert(_, _) => None,
        Call::Assume(_, _) => None,
        Call::ReachError(_) => None,
        Call::Abort(_) => None,
        Call::Exit(_, _) => Some(Phase::Ended),
        Call::Lock(_, _) => None,
        Call::Unlock(_, _) => None,
        Call::Destroy(_, _) => Some(Phase::Joining),
        Call::Init(_, _, _) => Some(Phase::Creating),
        Call::Create(_, _, _, _, _) => Some(Phase::Creating),
        Call::Join(_, _, _) => Some(Phase::Joining),
    }
}

// The phase that a statement of `main` belongs to.
fn phase_of(s: &Stmt) -> Option<Phase>
    ensures { result ≡ program.phase_of (plain_stmt s.now) }
{
    match s {
        Stmt::Block(_) => None,
        Stmt::Empty(_) => None,
        Stmt::Local(_) => None,
        Stmt::Assign(_) => None,
        Stmt::If(_, _, _, _) => None,
        Stmt::While(_, _, _) => None,
        Stmt::For(_, _, _, _, _) => None,
        Stmt::Break(_) => None,
        Stmt::Return(_, _) => Some(Phase::Ended),
        Stmt::Call(c) => phase_of_call(c.get()),
        Stmt::Atomic(_, _) => None,
        Stmt::Handles(_) => Some(Phase::Creating),
    }
}

// The phase behind a statement, if it may stand there.
fn phase_behind(phase: Phase, next: Option<Phase>) -> Option<Phase>
    ensures { result ≡ (if program.may_follow phase next then Some (program.phase_behind phase next) else None) }
{
    match (phase, next) {
        (Phase::Creating, Some(next)) => Some(next),
        (Phase::Joining, Some(Phase::Joining)) => Some(Phase::Joining),
        (Phase::Joining, Some(Phase::Ended)) => Some(Phase::Ended),
        _ => None,
    }
}

// The first statement that may not stand where it does.
fn form(ss: &[Stmt]) -> Option<Refusal>
    ensures { result ≡ first_of (program.form_broken Creating (plain_stmts ss.now)) }
{
    let mut phase = Phase::Creating;
    for s in ss {
        match phase_behind(phase, phase_of(s)) {
            Some(next) => phase = next,
            None => {
                return Some(Refusal {
                    code: BAD_MAIN,
                    place: s.place(),
                });
            }
        }
    }
    None
}

fn push_called(created: &mut Items<Creation>, scopes: &Scopes, c: &Call) -> Result<(), AllocError>
    ensures { OnOk result (created.new ≡ created.old ++ map stored_creation (creation_in scopes.now (plain.Stmt.Calls (plain_call c.now)))) }
{
    match c {
        Call::Assert(_, _) => Ok(()),
        Call::Assume(_, _) => Ok(()),
        Call::ReachError(_) => Ok(()),
        Call::Abort(_) => Ok(()),
        Call::Exit(_, _) => Ok(()),
        Call::Lock(_, _) => Ok(()),
        Call::Unlock(_, _) => Ok(()),
        Call::Destroy(_, _) => Ok(()),
        Call::Init(_, _, _) => Ok(()),
        Call::Create(_, _, _, x, _) => created.push(Creation {
            from: x.from,
            function: function(scopes, x),
        }),
        Call::Join(_, _, _) => Ok(()),
    }
}

// Adds the creation that a statement is, if it is one.
fn push_creation(created: &mut Items<Creation>, scopes: &Scopes, s: &Stmt) -> Result<(), AllocError>
    ensures { OnOk result (created.new ≡ created.old ++ map stored_creation (creation_in scopes.now (plain_stmt s.now))) }
{
    match s {
        Stmt::Block(_) => Ok(()),
        Stmt::Empty(_) => Ok(()),
        Stmt::Local(_) => Ok(()),
        Stmt::Assign(_) => Ok(()),
        Stmt::If(_, _, _, _) => Ok(()),
        Stmt::While(_, _, _) => Ok(()),
        Stmt::For(_, _, _, _, _) => Ok(()),
        Stmt::Break(_) => Ok(()),
        Stmt::Return(_, _) => Ok(()),
        Stmt::Call(c) => push_called(created, scopes, c.get()),
        Stmt::Atomic(_, _) => Ok(()),
        Stmt::Handles(_) => Ok(()),
    }
}

// Goes over the statements of `main`.
fn main_statements(
    alloc: Global,
    scopes: &mut Scopes,
    body: &mut Body,
    created: &mut Items<Creation>,
    place: Place,
    ss: &[Stmt],
) -> Result<(), AllocError>
    ensures scopes { OnOk result (scopes.new ≡ resolve.behind_all scopes.old (length body.old.locals) (plain_stmts ss.now)) }
    ensures body { OnOk result (body.new ≡ together body.old (stmts_found place scopes.old (length body.old.locals) (plain_stmts ss.now))) }
    ensures created { OnOk result (created.new ≡ created.old ++ map stored_creation (program.created_from scopes.old (length body.old.locals) (plain_stmts ss.now))) }
{
    for s in ss {
        push_creation(created, scopes, s)?;
        body.statement(alloc, scopes, place, s)?;
    }
    Ok(())
}

fn past_limit(created: &[Creation]) -> &[Creation]
    requires { most_threads ≤ length created.now }
    ensures { result.now ≡ drop most_threads created.now }
{
    &created[MOST_THREADS as usize..]
}

fn first_too_many(more: &[Creation]) -> Option<Refusal>
    ensures { result ≡ first_of (map too_many_of more.now) }
{
    let mut refusal = None;
    for creation in more {
        refusal = earlier(
            refusal,
            Some(Refusal {
                code: TOO_MANY,
                place: creation.from,
            }),
        );
    }
    refusal
}

// The first creation that is too many.
fn too_many(created: &[Creation]) -> Option<Refusal>
    ensures { result ≡ first_of (map too_many_of (drop most_threads created.now)) }
{
    if created.len() < MOST_THREADS as usize {
        None
    } else {
        first_too_many(past_limit(created))
    }
}

fn functions_of(alloc: Global, created: &[Creation]) -> Result<Items<usize>, AllocError>
    ensures { IfOk result (λ r. r ≡ map (λ c. c.function) created.now) }
{
    let numbers = created.iter().map(|c| c.function).collect(alloc)?;
    Ok(Items::from_vec(numbers))
}

/// Goes over the body of `main`.
pub fn main_body(alloc: Global, scopes: &mut Scopes, block: &Block) -> Result<MainBody, AllocError>
    ensures scopes { OnOk result (scopes.new ≡ scopes.old) }
    ensures created { IfOk result (λ m. m.created ≡ map (λ c. c.1) (program.created_from (open_scope scopes.old) 0 (plain_block block.now))) }
    ensures refusal { IfOk result (λ m. m.refusal ≡ first_of (program.main_broken scopes.old (plain_block block.now))) }
{
    let place = Place {
        is_in_thread: false,
        is_in_atomic: false,
    };
    let ss = block.stmts.as_slice();
    let mut body = Body::new(alloc);
    let mut created = Items::new(alloc);
    scopes.open()?;
    main_statements(alloc, scopes, &mut body, &mut created, place, ss)?;
    scopes.close();
    let refusal = earlier(
        earlier(body.refusal, form(ss)),
        too_many(created.as_slice()),
    );
    let created = functions_of(alloc, created.as_slice())?;
    Ok(MainBody { created, refusal })
}
