//! Reads declarations: lists of names behind the words of a type.

ghost use Rattle.std.specs.Prelude.{◌≡◌};
ghost use Rattle.c_tree.specs.inside.Chain.{more_of, mark_at, past};
ghost use Rattle.c_tree.specs.inside.Expr as expr_spec;
ghost use Rattle.c_tree.specs.inside.Simple as spec;
ghost use Rattle.c_tree.specs.inside.Input.{Reads};

use crate::expr::Name;
use crate::more::more_of;
use crate::operand::name;
use crate::parts::lname;
use crate::simple::{Handles, Itype, Lname, Local, Qual, QualKind};
use crate::term::Term;
use crate::tokens::Tokens;
use sqlite_items::Items;
use std::alloc::Global;
use thr_base::Stop;

pub fn comma_mark(tokens: &mut Tokens<'_, '_>) -> Option<u32>
    ensures mark { result ≡ mark_at spec.comma_mark tokens.old }
    ensures after { tokens.new ≡ past (mark_at spec.comma_mark tokens.old) tokens.old }
{
    match tokens.peek() {
        Term::Comma => Some(tokens.take()),
        _ => None,
    }
}

fn qual_mark(tokens: &mut Tokens<'_, '_>) -> Option<Qual>
    ensures mark { result ≡ mark_at spec.qual_mark tokens.old }
    ensures after { tokens.new ≡ past (mark_at spec.qual_mark tokens.old) tokens.old }
{
    let kind = match tokens.peek() {
        Term::Static => QualKind::Static,
        Term::Volatile => QualKind::Volatile,
        Term::Extern => QualKind::Extern,
        _ => return None,
    };
    let from = tokens.take();
    Some(Qual { from, kind })
}

pub fn quals(alloc: Global, tokens: &mut Tokens<'_, '_>) -> Result<Items<Qual>, Stop>
    ensures { Reads (spec.quals tokens.old) result tokens.new }
{
    let mut all = Items::new(alloc);
    while let Some(mark) = qual_mark(tokens) {
        all.push(mark)?;
    }
    Ok(all)
}

#[tactic(auto, unfolding(crate::specs::inside::Simple::itype))]
pub fn itype(tokens: &mut Tokens<'_, '_>) -> Result<Itype, Stop>
    ensures { Reads (spec.itype tokens.old) result tokens.new }
{
    match tokens.peek() {
        Term::Int => Ok(Itype::Int(tokens.take())),
        Term::Long => {
            let from = tokens.take();
            if tokens.eat(Term::Int) {
                Ok(Itype::LongInt(from))
            } else {
                Ok(Itype::Long(from))
            }
        }
        _ => Err(tokens.refuse()),
    }
}

fn more_lnames(
    alloc: Global,
    tokens: &mut Tokens<'_, '_>,
    levels: u32,
) -> Result<Items<(u32, Lname)>, Stop>
    ensures { Reads (more_of spec.comma_mark (spec.lname levels) tokens.old) result tokens.new }
{
    more_of!(alloc, comma_mark(tokens), lname(alloc, tokens, levels))
}

pub fn more_names(alloc: Global, tokens: &mut Tokens<'_, '_>) -> Result<Items<(u32, Name)>, Stop>
    ensures { Reads (more_of spec.comma_mark expr_spec.name tokens.old) result tokens.new }
{
    more_of!(alloc, comma_mark(tokens), name(alloc, tokens))
}

#[tactic(auto, unfolding(crate::specs::inside::Simple::local))]
pub fn local(alloc: Global, tokens: &mut Tokens<'_, '_>, levels: u32) -> Result<Local, Stop>
    ensures { Reads (spec.local levels tokens.old) result tokens.new }
{
    let from = tokens.place();
    let quals = quals(alloc, tokens)?;
    let itype = itype(tokens)?;
    let first = lname(alloc, tokens, levels)?;
    let more = more_lnames(alloc, tokens, levels)?;
    tokens.expect(Term::Semicolon)?;
    Ok(Local {
        from,
        quals,
        itype,
        first,
        more,
    })
}

#[tactic(auto, unfolding(crate::specs::inside::Simple::handles))]
pub fn handles(alloc: Global, tokens: &mut Tokens<'_, '_>) -> Result<Handles, Stop>
    ensures { Reads (spec.handles tokens.old) result tokens.new }
{
    let from = tokens.expect(Term::HandleType)?;
    let first = name(alloc, tokens)?;
    let more = more_names(alloc, tokens)?;
    tokens.expect(Term::Semicolon)?;
    Ok(Handles { from, first, more })
}
