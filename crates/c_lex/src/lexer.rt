//! Cuts a text into its tokens.

ghost use Rattle.std.specs.Prelude.{◌≡◌, ◌≤◌, ◌++◌, length, IfOk, OnOk};
ghost use Rattle.thr_base.specs.Limits.{text_limit};
ghost use Rattle.thr_base.specs.Refusals.{Gives};
ghost use Rattle.c_lex.specs.Tokens.{views, is_fresh_after, lexemes_of, lexed, StandIn, AreTokens};

use crate::bytes::is_space;
use crate::piece::piece_at;
use crate::token::{Kind, Token};
use std::alloc::{AllocError, Global};
use thr_base::{Refusal, Stop};

// The token that a piece is, if it is one.
fn push_token<'a>(
    tokens: &mut Vec<Token<'a>>,
    kind: Option<Kind>,
    text: &'a str,
    from: u32,
) -> Result<(), AllocError>
    ensures { OnOk result (views tokens.new.items ≡ views tokens.old.items ++ lexemes_of kind text.now from) }
{
    if let Some(kind) = kind {
        tokens.push(Token { kind, text, from })?;
    }
    Ok(())
}

// Whether the line has only blanks and tabs, after a piece that begins with `first`.
fn is_fresh_after(is_fresh: bool, first: u8) -> bool
    ensures { result ≡ is_fresh_after is_fresh first }
{
    first == b'\n' || (is_fresh && is_space(first))
}

/// The tokens of a text, in its order. A byte that begins no token, or a comment without an end, is refused as
/// rule 2 at its place; a number that has a needless zero, that is 2^127 or more, or that a letter follows is refused
/// as rule 3 at its first digit. The first such place is answered.
pub fn lex<'a>(alloc: Global, text: &'a str) -> Result<Vec<Token<'a>>, Stop>
    requires { length text.now ≤ text_limit }
    ensures exact { Gives (λ v. views v.items) result (lexed text.now) }
    // Each token is the slice of the text at its place, and places rise.
    ensures slices { IfOk result (λ v. StandIn text.now 0 (views v.items)) }
    // Each token is one of its kind, and the longest that stands there.
    ensures longest { IfOk result (λ v. AreTokens text.now (views v.items)) }
{
    let mut tokens = Vec::new(alloc);
    let mut rest = text;
    let mut from = 0;
    let mut is_fresh = true;
    while !rest.is_empty() {
        let first = rest.as_bytes()[0];
        let piece = match piece_at(rest, is_fresh) {
            Ok(piece) => piece,
            Err(code) => return Err(Stop::Refused(Refusal { code, place: from })),
        };
        let (front, after) = rest.split_at(piece.len);
        push_token(&mut tokens, piece.kind, front, from)?;
        is_fresh = is_fresh_after(is_fresh, first);
        from += piece.len as u32;
        rest = after;
    }
    Ok(tokens)
}
