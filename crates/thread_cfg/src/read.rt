//! From bytes to the program that they are the text of.

ghost use Rattle.std.specs.Prelude.{◌≡◌, ◌≤◌, length, IsUtf8, IfOk, IfErr};
ghost use Rattle.thr_base.specs.Limits.{text_limit};
ghost use Rattle.thread_cfg.specs.Read.{IsReadAnswer, Refuses};

use crate::building::build;
use c_check::check;
use c_lex::lex;
use c_tree::parse_tokens;
use std::alloc::Global;
use std::str;
use thr_base::{NOT_TEXT, Refusal, Stop};
use transition_formula::Program;

/// The text that the bytes are.
fn text_of(bytes: &[u8]) -> Result<&str, Refusal>
    requires { length bytes.now ≤ text_limit }
    ensures same { IfOk result (λ text. (text.now ≡ bytes.now) × IsUtf8 bytes.now) }
    ensures refused { IfErr result (Refuses bytes.now) }
{
    match str::from_utf8(bytes) {
        Ok(text) => Ok(text),
        Err(error) => Err(Refusal {
            code: NOT_TEXT,
            place: error.valid_up_to() as u32,
        }),
    }
}

/// The program of a text of characters.
fn read_text(alloc: Global, text: &str) -> Result<Program, Stop>
    requires within { length text.now ≤ text_limit }
    requires utf8 { IsUtf8 text.now }
    ensures { IsReadAnswer text.now result }
{
    let tokens = lex(alloc, text)?;
    let tree = parse_tokens(alloc, text, &tokens)?;
    let plan = check(alloc, &tree)?;
    build(alloc, &plan)
}

/// The program that the bytes are the text of. Refused is the first rule that the first failing pass finds broken: that the bytes are
/// UTF-8, the grammar, names and form, the graph.
pub fn read_program(alloc: Global, bytes: &[u8]) -> Result<Program, Stop>
    requires { length bytes.now ≤ text_limit }
    ensures { IsReadAnswer bytes.now result }
{
    match text_of(bytes) {
        Ok(text) => read_text(alloc, text),
        Err(refusal) => Err(Stop::Refused(refusal)),
    }
}
