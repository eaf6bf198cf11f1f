//! Reads a text: its tokens, and then its tree.

ghost use Rattle.std.specs.Prelude.{◌≡◌, ◌≤◌, length, IfOk, Ok};
ghost use Rattle.thr_base.specs.Limits.{text_limit};
ghost use Rattle.thr_base.specs.Refusals.{Gives};
ghost use Rattle.c_lex.specs.Tokens.{views, lexed};
ghost use Rattle.c_tree.specs.GrammarItem.{IsTreeOf};
ghost use Rattle.c_tree.specs.inside.Item.{ended, max_levels, tree, value_of};
ghost use Rattle.c_tree.specs.Refused.{IsRefusedBy};

use crate::item::Tree;
use crate::items::items;
use crate::tokens::Tokens;
use c_lex::{Token, lex};
use std::alloc::Global;
use thr_base::Stop;

#[tactic(auto, unfolding(crate::specs::inside::Item::tree))]
fn tree_of(alloc: Global, tokens: &[Token<'_>], end: u32) -> Result<Tree, Stop>
    ensures { Gives (λ t. t) result (ended end (value_of (tree max_levels (record { tokens = views tokens.now; end = end })))) }
{
    let mut left = Tokens::new(tokens, end);
    let items = items(alloc, &mut left)?;
    Ok(Tree { items, end })
}

/// `parse` of a text whose tokens were taken already.
pub fn parse_tokens(alloc: Global, text: &str, tokens: &[Token<'_>]) -> Result<Tree, Stop>
    requires limit { length text.now ≤ text_limit }
    requires tokens { lexed text.now ≡ Ok (views tokens.now) }
    ensures tree { IfOk result (λ t. IsTreeOf text.now t) }
    ensures refused { IsRefusedBy text.now result }
{
    tree_of(alloc, tokens, text.len() as u32)
}

/// The tree of a text. Refused is the first faulty token, as `lex` says; and where there is none, the first token that
/// no text of the grammar has there, as rule 5 where it stands nowhere in the profile and else as rule 4, or that opens
/// a level too many, as rule 11. Where the text should go on, its length is the place. What stands in front of the refused
/// token begins a text of the grammar.
pub fn parse(alloc: Global, text: &str) -> Result<Tree, Stop>
    requires { length text.now ≤ text_limit }
    ensures tree { IfOk result (λ t. IsTreeOf text.now t) }
    ensures refused { IsRefusedBy text.now result }
{
    match lex(alloc, text) {
        Err(stop) => Err(stop),
        Ok(tokens) => parse_tokens(alloc, text, &tokens),
    }
}
