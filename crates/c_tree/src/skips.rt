//! Skips tokens whose brackets are balanced.

ghost use Rattle.std.specs.Prelude.{◌≡◌, reverse, IfOk, Some, None, if◌then◌else◌};
ghost use Rattle.c_tree.specs.inside.Input.{Reads};
ghost use Rattle.c_tree.specs.inside.Item as spec;

use crate::term::{Term, same_term};
use crate::tokens::Tokens;
use sqlite_items::Items;
use std::alloc::{AllocError, Global};
use thr_base::Stop;

// The brackets that are open behind a token, the innermost last; `false` where the token closes another.
fn open_after(ends: &mut Items<Term>, term: Term) -> Result<bool, AllocError>
    ensures { IfOk result (λ fits. spec.open_after term (reverse ends.old) ≡ (if fits then Some (reverse ends.new) else None)) }
{
    match term {
        Term::End => Ok(false),
        Term::LeftParen => {
            ends.push(Term::RightParen)?;
            Ok(true)
        }
        Term::LeftBrace => {
            ends.push(Term::RightBrace)?;
            Ok(true)
        }
        Term::RightParen | Term::RightBrace => match ends.pop() {
            None => Ok(false),
            Some(top) => Ok(same_term(top, term)),
        },
        _ => Ok(true),
    }
}

/// Tokens through the mark that closes a bracket, which is open.
pub fn skip_through(alloc: Global, tokens: &mut Tokens<'_, '_>, close: Term) -> Result<(), Stop>
    ensures { Reads (spec.skip_through close tokens.old) result tokens.new }
{
    let mut ends = Items::new(alloc);
    ends.push(close)?;
    while !ends.is_empty() {
        let fits = open_after(&mut ends, tokens.peek())?;
        if !fits {
            return Err(tokens.refuse());
        }
        tokens.take();
    }
    Ok(())
}
