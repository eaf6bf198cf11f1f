//! Operands: names, numbers, and what operators and parentheses stand before.

ghost use Rattle.std.specs.Prelude.{◌≡◌, None};
ghost use Rattle.c_tree.specs.inside.Expr as spec;
ghost use Rattle.c_tree.specs.inside.Input.{Reads};

use crate::expr::{Name, Unary};
use crate::levels::Levels;
use crate::magnitude::Magnitude;
use crate::term::Term;
use crate::tokens::Tokens;
use sqlite_items::Items;
use std::alloc::Global;
use thr_base::Stop;

#[tactic(auto, unfolding(crate::specs::inside::Expr::number))]
pub fn number(tokens: &mut Tokens<'_, '_>) -> Result<Magnitude, Stop>
    ensures { Reads (spec.number tokens.old) result tokens.new }
{
    match Magnitude::of_digits(tokens.text()) {
        None => Err(tokens.refuse()),
        Some(value) => {
            tokens.expect(Term::Number)?;
            Ok(value)
        }
    }
}

#[tactic(auto, unfolding(crate::specs::inside::Expr::name))]
pub fn name(alloc: Global, tokens: &mut Tokens<'_, '_>) -> Result<Name, Stop>
    ensures { Reads (spec.name tokens.old) result tokens.new }
{
    let text = tokens.text();
    let from = tokens.expect(Term::Name)?;
    Ok(Name {
        from,
        text: Items::from_slice(alloc, text.as_bytes())?,
    })
}

pub fn number_operand(tokens: &mut Tokens<'_, '_>) -> Result<Unary, Stop>
    ensures { Reads (spec.number_operand tokens.old) result tokens.new }
{
    let from = tokens.place();
    Ok(Unary::Number(from, number(tokens)?))
}

pub fn name_operand(alloc: Global, tokens: &mut Tokens<'_, '_>) -> Result<Unary, Stop>
    ensures { Reads (spec.name_operand tokens.old) result tokens.new }
{
    Ok(Unary::Name(name(alloc, tokens)?))
}

/// An operand, where no further level may be opened.
#[tactic(auto, unfolding(crate::specs::inside::Expr::unary_with))]
pub fn leaf(alloc: Global, tokens: &mut Tokens<'_, '_>) -> Result<Unary, Stop>
    ensures { Reads (spec.unary_with None tokens.old) result tokens.new }
{
    match tokens.peek() {
        Term::Minus | Term::Plus | Term::Not | Term::LeftParen => Err(tokens.refuse_deep()),
        Term::Number => number_operand(tokens),
        Term::Name => name_operand(alloc, tokens),
        _ => Err(tokens.refuse()),
    }
}

/// An operand, with at most `levels` levels of operators and parentheses.
pub fn unary(alloc: Global, tokens: &mut Tokens<'_, '_>, levels: u32) -> Result<Unary, Stop>
    ensures { Reads (spec.unary levels tokens.old) result tokens.new }
{
    if levels == 0 {
        return leaf(alloc, tokens);
    }
    Levels {
        alloc,
        levels: levels - 1,
        unary,
    }
    .operand(tokens)
}
