//! The tokens of a C text: words, numbers, marks and foreign bytes, each a slice of the text at its place,
//! or the first byte at which there is no token. The layer above reads the grammar over them.
#![tactic(auto)]

mod bytes;
mod laws;
mod lexer;
mod piece;
mod token;

pub use laws::tokens_are_those_of_texts;
pub use lexer::lex;
pub use token::{Kind, Token};

#[cfg(test)]
mod tests;
