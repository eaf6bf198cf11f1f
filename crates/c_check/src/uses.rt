//! What names and expressions are used as, and where they may not be.

ghost use Rattle.std.specs.Prelude.{◌≡◌, ◌&&◌};
ghost use Rattle.c_tree.specs.Seen.{plain_conjunction, plain_equality, plain_expr, plain_product, plain_relation, plain_sum, plain_unary};
ghost use Rattle.c_check.specs.Broken.{broken_if, expr_broken, is_of_kind, no_number, sign_broken, sign_use, unknown_as};
ghost use Rattle.c_check.specs.First.{first_of};
ghost use Rattle.c_check.specs.inside.Used.{beside, found_in, use_before};
ghost use Rattle.thr_base.specs.Refusals.{not_linear};

use crate::first::{earlier, refusal_if};
use crate::meaning::Meaning;
use crate::scopes::Scopes;
use c_tree::{Conjunction, Equality, Expr, Name, Product, Relation, Sum, Unary, UnaryKind};
use thr_base::{NOT_LINEAR, Refusal, UNKNOWN_NAME};

/// The kinds of what names stand for.
#[derive(Clone, Copy, Debug, PartialEq, Eq)]
pub enum Kind {
    Integer,
    Lock,
    Handle,
    Function,
}

/// What an expression is used as.
#[derive(Clone, Copy, Debug, PartialEq, Eq)]
pub enum Use {
    Number,
    Condition,
}

/// Refused is a name that does not stand for what it is used as.
pub fn name(scopes: &Scopes, kind: Kind, name: &Name) -> Option<Refusal>
    ensures { result ≡ first_of (unknown_as kind scopes.now name.now) }
{
    let is_known = is_of_kind(kind, scopes.meaning(name));
    refusal_if(!is_known, UNKNOWN_NAME, name.from)
}

fn is_of_kind(kind: Kind, meaning: Option<Meaning>) -> bool
    ensures { result ≡ is_of_kind kind meaning }
{
    match (kind, meaning) {
        (Kind::Integer, Some(Meaning::Integer(_))) => true,
        (Kind::Lock, Some(Meaning::Lock(_))) => true,
        (Kind::Handle, Some(Meaning::Handle)) => true,
        (Kind::Function, Some(Meaning::Function(_))) => true,
        _ => false,
    }
}

/// Refused is what an expression holds: a name of no variable, a product with a name on both sides, or what is no number where
/// a number is asked for.
pub fn expr(scopes: &Scopes, used: Use, e: &Expr) -> Option<Refusal>
    ensures { result ≡ first_of (expr_broken scopes.now used (plain_expr e.now)) }
{
    in_expr(scopes, used, e).refusal
}

// What a walk over an expression answers.
#[derive(Clone, Copy)]
struct Found {
    refusal: Option<Refusal>,
    has_name: bool,
}

impl Found {
    const NOTHING: Found = Found {
        refusal: None,
        has_name: false,
    };

    // Refused is the mark of a product with a name on both sides.
    fn product_mark(self, from: u32, right: Found) -> Option<Refusal>
        ensures { result ≡ first_of (broken_if (self.has_name && right.has_name) not_linear from) }
    {
        not_linear_if(self.has_name && right.has_name, from)
    }

    // What two operands and the mark between them come to.
    fn beside(self, mark: Option<Refusal>, right: Found) -> Found
        ensures { result ≡ beside self mark right }
    {
        Found {
            refusal: earlier(self.refusal, earlier(mark, right.refusal)),
            has_name: self.has_name || right.has_name,
        }
    }
}

// What the front of a chain of operands is used as, where so many marks are behind it.
fn use_before(operand: Use, whole: Use, behind: usize) -> Use
    ensures { result ≡ use_before operand whole behind }
{
    if behind == 0 { whole } else { operand }
}

// Refused is a mark that makes a condition, where a number is asked for.
fn no_number(used: Use, from: u32) -> Option<Refusal>
    ensures { result ≡ first_of (no_number used from) }
{
    match used {
        Use::Number => not_linear_if(true, from),
        Use::Condition => not_linear_if(false, from),
    }
}

fn not_linear_if(is_broken: bool, from: u32) -> Option<Refusal>
    ensures { result ≡ first_of (broken_if is_broken not_linear from) }
{
    refusal_if(is_broken, NOT_LINEAR, from)
}

// What the operand behind a sign or `!` is used as.
fn sign_use(kind: UnaryKind) -> Use
    ensures { result ≡ sign_use kind }
{
    match kind {
        UnaryKind::Not => Use::Condition,
        UnaryKind::Minus => Use::Number,
        UnaryKind::Plus => Use::Number,
    }
}

// Refused is `!`, where a number is asked for.
fn sign_refusal(used: Use, kind: UnaryKind, from: u32) -> Option<Refusal>
    ensures { result ≡ first_of (sign_broken used kind from) }
{
    match kind {
        UnaryKind::Not => no_number(used, from),
        UnaryKind::Minus => None,
        UnaryKind::Plus => None,
    }
}

#[cycle(walk)]
fn in_expr(scopes: &Scopes, used: Use, e: &Expr) -> Found
    ensures { result ≡ found_in scopes.now used (plain_expr e.now) }
{
    let more = e.more.as_slice();
    let mut found = in_conjunction(
        scopes,
        use_before(Use::Condition, used, more.len()),
        &e.first,
    );
    for (i, (from, part)) in more.iter().enumerate() {
        let mark = no_number(
            use_before(Use::Condition, used, more.len() - (i + 1)),
            *from,
        );
        found = found.beside(mark, in_conjunction(scopes, Use::Condition, part));
    }
    found
}

#[cycle(walk)]
fn in_conjunction(scopes: &Scopes, used: Use, c: &Conjunction) -> Found
    ensures { result ≡ found_in scopes.now used (plain_conjunction c.now) }
{
    let more = c.more.as_slice();
    let mut found = in_equality(
        scopes,
        use_before(Use::Condition, used, more.len()),
        &c.first,
    );
    for (i, (from, part)) in more.iter().enumerate() {
        let mark = no_number(
            use_before(Use::Condition, used, more.len() - (i + 1)),
            *from,
        );
        found = found.beside(mark, in_equality(scopes, Use::Condition, part));
    }
    found
}

#[cycle(walk)]
fn in_equality(scopes: &Scopes, used: Use, e: &Equality) -> Found
    ensures { result ≡ found_in scopes.now used (plain_equality e.now) }
{
    let more = e.more.as_slice();
    let mut found = in_relation(scopes, use_before(Use::Number, used, more.len()), &e.first);
    for (i, (mark, part)) in more.iter().enumerate() {
        let mark = no_number(
            use_before(Use::Number, used, more.len() - (i + 1)),
            mark.from,
        );
        found = found.beside(mark, in_relation(scopes, Use::Number, part));
    }
    found
}

#[cycle(walk)]
fn in_relation(scopes: &Scopes, used: Use, r: &Relation) -> Found
    ensures { result ≡ found_in scopes.now used (plain_relation r.now) }
{
    let more = r.more.as_slice();
    let mut found = in_sum(scopes, use_before(Use::Number, used, more.len()), &r.first);
    for (i, (mark, part)) in more.iter().enumerate() {
        let mark = no_number(
            use_before(Use::Number, used, more.len() - (i + 1)),
            mark.from,
        );
        found = found.beside(mark, in_sum(scopes, Use::Number, part));
    }
    found
}

#[cycle(walk)]
fn in_sum(scopes: &Scopes, used: Use, s: &Sum) -> Found
    ensures { result ≡ found_in scopes.now used (plain_sum s.now) }
{
    let more = s.more.as_slice();
    let mut found = in_product(scopes, use_before(Use::Number, used, more.len()), &s.first);
    for (_, part) in more {
        found = found.beside(None, in_product(scopes, Use::Number, part));
    }
    found
}

#[cycle(walk)]
fn in_product(scopes: &Scopes, used: Use, p: &Product) -> Found
    ensures { result ≡ found_in scopes.now used (plain_product p.now) }
{
    let more = p.more.as_slice();
    let mut found = in_unary(scopes, use_before(Use::Number, used, more.len()), &p.first);
    for (from, part) in more {
        let right = in_unary(scopes, Use::Number, part);
        found = found.beside(found.product_mark(*from, right), right);
    }
    found
}

#[cycle(walk)]
fn in_unary(scopes: &Scopes, used: Use, u: &Unary) -> Found
    ensures { result ≡ found_in scopes.now used (plain_unary u.now) }
{
    match u {
        Unary::Operator(from, kind, operand) => {
            let operand = in_unary(scopes, sign_use(*kind), operand.get());
            Found::NOTHING.beside(sign_refusal(used, *kind, *from), operand)
        }
        Unary::Paren(_, inner) => in_expr(scopes, used, inner.get()),
        Unary::Number(_, _) => Found::NOTHING,
        Unary::Name(x) => Found {
            refusal: name(scopes, Kind::Integer, x),
            has_name: true,
        },
    }
}
