//! The first rule that a part of a statement breaks.

ghost use Rattle.std.specs.Prelude.{◌≡◌, ◌++◌, option_map};
ghost use Rattle.c_tree.specs.Seen.{plain_assign, plain_call, plain_cond, plain_expr, plain_right};
ghost use Rattle.c_check.specs.Broken as broken;
ghost use Rattle.c_check.specs.declared.uses.Kind.TheVariants.{Integer};
ghost use Rattle.c_check.specs.declared.uses.Use.TheVariants.{Condition, Number};
ghost use Rattle.c_check.specs.First.{first_of};

use crate::first::{earlier, refusal_if};
use crate::place::Place;
use crate::scopes::Scopes;
use crate::uses::{Kind, Use, expr, name};
use c_tree::{Assign, Call, Cond, Expr, Name, Right};
use sqlite_items::Boxed;
use thr_base::{ATOMIC_BODY, BAD_MAIN, Refusal, TWICE_NAMED};

/// Of a name that is declared.
pub fn twice(scopes: &Scopes, name: &Name) -> Option<Refusal>
    ensures { result ≡ first_of (broken.twice scopes.now name.now) }
{
    refusal_if(scopes.has(name), TWICE_NAMED, name.from)
}

/// Of what may not stand in an atomic block.
pub fn not_in_atomic(place: Place, from: u32) -> Option<Refusal>
    ensures { result ≡ first_of (broken.not_in_atomic place from) }
{
    refusal_if(place.is_in_atomic, ATOMIC_BODY, from)
}

/// Of what `main` alone may do.
pub fn only_in_main(place: Place, from: u32) -> Option<Refusal>
    ensures { result ≡ first_of (broken.only_in_main place from) }
{
    refusal_if(place.is_in_thread, BAD_MAIN, from)
}

/// Of what a variable is set to.
pub fn right(scopes: &Scopes, value: &Right) -> Option<Refusal>
    ensures { result ≡ first_of (broken.value_broken scopes.now Number (plain_right value.now)) }
{
    match value {
        Right::Nondet(_) => None,
        Right::Expr(e) => expr(scopes, Use::Number, e),
    }
}

/// Of what a local starts with.
pub fn start(scopes: &Scopes, value: &Option<Right>) -> Option<Refusal>
    ensures { result ≡ first_of (broken.value_if_broken scopes.now Number (option_map plain_right value.now)) }
{
    match value {
        None => None,
        Some(value) => right(scopes, value),
    }
}

/// Of a condition.
pub fn cond(scopes: &Scopes, c: &Cond) -> Option<Refusal>
    ensures { result ≡ first_of (broken.value_broken scopes.now Condition (plain_cond c.now)) }
{
    match c {
        Cond::Nondet(_) => None,
        Cond::Expr(e) => expr(scopes, Use::Condition, e),
    }
}

/// Of the condition of a `for`.
pub fn cond_if(scopes: &Scopes, c: &Option<Boxed<Cond>>) -> Option<Refusal>
    ensures { result ≡ first_of (broken.value_if_broken scopes.now Condition (option_map plain_cond c.now)) }
{
    match c {
        None => None,
        Some(c) => cond(scopes, c.get()),
    }
}

/// Of an assignment.
pub fn assign(scopes: &Scopes, a: &Assign) -> Option<Refusal>
    ensures { result ≡ first_of (broken.assign_broken scopes.now (plain_assign a.now)) }
{
    match a {
        Assign::Set(x, value) => earlier(name(scopes, Kind::Integer, x), right(scopes, value)),
        Assign::Add(x, e) => number(scopes, x, e),
        Assign::Subtract(x, e) => number(scopes, x, e),
        Assign::Increment(x) => name(scopes, Kind::Integer, x),
        Assign::Decrement(x) => name(scopes, Kind::Integer, x),
        Assign::IncrementFirst(_, x) => name(scopes, Kind::Integer, x),
        Assign::DecrementFirst(_, x) => name(scopes, Kind::Integer, x),
    }
}

// Of a variable that is set, and an expression that is used as a number.
fn number(scopes: &Scopes, x: &Name, e: &Expr) -> Option<Refusal>
    ensures { result ≡ first_of (broken.unknown_as Integer scopes.now x.now ++ broken.expr_broken scopes.now Number (plain_expr e.now)) }
{
    earlier(name(scopes, Kind::Integer, x), expr(scopes, Use::Number, e))
}

/// Of the last part of a `for`.
pub fn assign_if(scopes: &Scopes, a: &Option<Boxed<Assign>>) -> Option<Refusal>
    ensures { result ≡ first_of (broken.assign_if_broken scopes.now (option_map plain_assign a.now)) }
{
    match a {
        None => None,
        Some(a) => assign(scopes, a.get()),
    }
}

/// Of a call.
pub fn call(place: Place, scopes: &Scopes, c: &Call) -> Option<Refusal>
    ensures { result ≡ first_of (broken.call_broken place scopes.now (plain_call c.now)) }
{
    match c {
        Call::Assert(_, e) => expr(scopes, Use::Condition, e),
        Call::Assume(_, e) => expr(scopes, Use::Condition, e),
        Call::ReachError(_) => None,
        Call::Abort(_) => None,
        Call::Exit(from, _) => not_in_atomic(place, *from),
        Call::Lock(from, x) => earlier(not_in_atomic(place, *from), name(scopes, Kind::Lock, x)),
        Call::Unlock(from, x) => earlier(not_in_atomic(place, *from), name(scopes, Kind::Lock, x)),
        Call::Destroy(from, x) => earlier(only_in_main(place, *from), name(scopes, Kind::Lock, x)),
        Call::Init(from, x, _) => earlier(only_in_main(place, *from), name(scopes, Kind::Lock, x)),
        Call::Create(from, handle, _, function, _) => earlier(
            only_in_main(place, *from),
            earlier(
                name(scopes, Kind::Handle, handle),
                name(scopes, Kind::Function, function),
            ),
        ),
        Call::Join(from, handle, _) => earlier(
            only_in_main(place, *from),
            name(scopes, Kind::Handle, handle),
        ),
    }
}
