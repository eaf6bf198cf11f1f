//! What stands at the front of a text: a token, what is skipped, or a broken rule.

ghost use Rattle.std.specs.Prelude.{◌≡◌, ◌<◌, ◌≤◌, ◌^◌, nat_lt, drop, length, IfSome, true};
ghost use Rattle.std.specs.Char.{is_ascii_digit};
ghost use Rattle.std.specs.List.{prefix_len};
ghost use Rattle.std.specs.Str.{all_ascii_digits};
ghost use Rattle.std.specs.Str.Parse.{digits_value};
ghost use Rattle.c_lex.specs.Piece.{piece_of, number_of, is_number_text, mark_of, comment_of, goes_on_include, through_close};

use crate::bytes::{
    digits_len, is_double_mark, is_foreign, is_letter, is_mark, is_separator, line_len, spaces_len,
    word_len,
};
use crate::token::Kind;
use thr_base::{BAD_BYTE, BAD_NUMBER};

/// The front of a text: a token, or bytes that are skipped.
#[derive(Clone, Copy)]
pub struct Piece {
    pub kind: Option<Kind>,
    pub len: usize,
}

impl Piece {
    fn skipped(len: usize) -> Piece
        ensures { result ≡ record { kind = None; len = len } }
    {
        Piece { kind: None, len }
    }

    fn token(kind: Kind, len: usize) -> Piece
        ensures { result ≡ record { kind = Some kind; len = len } }
    {
        Piece {
            kind: Some(kind),
            len,
        }
    }
}

fn through_close(bytes: &[u8]) -> Option<usize>
    ensures exact { result ≡ through_close bytes.now }
    ensures within { IfSome result (λ n. n ≤ length bytes.now) }
{
    for i in 1..bytes.len() {
        if bytes[i - 1] == b'*' && bytes[i] == b'/' {
            return Some(i + 1);
        }
    }
    None
}

fn comment_at(bytes: &[u8]) -> Result<Piece, u8>
    requires { 2 ≤ length bytes.now }
    ensures { result ≡ comment_of (through_close (drop 2 bytes.now)) }
{
    match through_close(&bytes[2..]) {
        None => Err(BAD_BYTE),
        Some(len) => Ok(Piece::skipped(2 + len)),
    }
}

fn goes_on_include(bytes: &[u8]) -> bool
    ensures { result ≡ goes_on_include bytes.now }
{
    let word = &bytes[spaces_len(bytes)..];
    let word = &word[..word_len(word)];
    word == b"include".as_slice()
}

// Their value is below 2^127.
fn fits(digits: &str) -> bool
    requires some { 0 < length digits.now }
    requires digits { all_ascii_digits digits.now ≡ true }
    ensures { result ≡ nat_lt (digits_value 10 digits.now) (2 ^ 127) }
{
    digits.parse::<i128>().is_ok()
}

fn is_number_text(digits: &str) -> bool
    requires some { 0 < length digits.now }
    requires digits { all_ascii_digits digits.now ≡ true }
    ensures { result ≡ is_number_text digits.now }
{
    let bytes = digits.as_bytes();
    (bytes.len() == 1 || bytes[0] != b'0') && fits(digits)
}

fn number_at(rest: &str) -> Result<Piece, u8>
    requires { 0 < prefix_len is_ascii_digit rest.now }
    ensures { result ≡ number_of rest.now }
{
    let bytes = rest.as_bytes();
    let len = digits_len(bytes);
    let is_followed = len < bytes.len() && is_letter(bytes[len]);
    let (digits, _) = rest.split_at(len);
    if is_number_text(digits) && !is_followed {
        Ok(Piece::token(Kind::Number, len))
    } else {
        Err(BAD_NUMBER)
    }
}

fn mark_at(bytes: &[u8]) -> Result<Piece, u8>
    requires { 0 < length bytes.now }
    ensures { result ≡ mark_of bytes.now }
{
    let first = bytes[0];
    let second = if bytes.len() > 1 { bytes[1] } else { 0 };
    if is_double_mark(first, second) {
        Ok(Piece::token(Kind::Mark, 2))
    } else if is_mark(first) {
        Ok(Piece::token(Kind::Mark, 1))
    } else if is_foreign(first) {
        Ok(Piece::token(Kind::Foreign, 1))
    } else {
        Err(BAD_BYTE)
    }
}

/// `is_fresh` says that the line has only blanks and tabs so far. An error is the number of the rule that is broken.
#[tactic(auto, unfolding(crate::specs::Piece::piece_of))]
pub fn piece_at(rest: &str, is_fresh: bool) -> Result<Piece, u8>
    requires { 0 < length rest.now }
    ensures { result ≡ piece_of is_fresh rest.now }
{
    let bytes = rest.as_bytes();
    let first = bytes[0];
    if is_separator(first) {
        Ok(Piece::skipped(1))
    } else if bytes.starts_with(b"//") {
        Ok(Piece::skipped(line_len(bytes)))
    } else if bytes.starts_with(b"/*") {
        comment_at(bytes)
    } else if is_fresh && first == b'#' && goes_on_include(&bytes[1..]) {
        Ok(Piece::skipped(line_len(bytes)))
    } else if is_letter(first) {
        Ok(Piece::token(Kind::Word, word_len(bytes)))
    } else if first.is_ascii_digit() {
        number_at(rest)
    } else {
        mark_at(bytes)
    }
}
