//! Which part a byte plays in a text, and how far a run of such bytes reaches.

ghost use Rattle.std.specs.Prelude.{◌≡◌, ◌≤◌, length};
ghost use Rattle.std.specs.Char.{is_ascii_digit};
ghost use Rattle.std.specs.List.{prefix_len};
ghost use Rattle.c_lex.specs.Bytes.{is_space, is_separator, is_letter, is_word_byte, is_in_line, is_mark, is_double_mark, is_foreign};

pub fn is_space(b: u8) -> bool
    ensures { result ≡ is_space b }
{
    b == b' ' || b == b'\t'
}

pub fn is_separator(b: u8) -> bool
    ensures { result ≡ is_separator b }
{
    is_space(b) || b == b'\n' || b == b'\r'
}

pub fn is_letter(b: u8) -> bool
    ensures { result ≡ is_letter b }
{
    b.is_ascii_alphabetic() || b == b'_'
}

pub fn is_word_byte(b: u8) -> bool
    ensures { result ≡ is_word_byte b }
{
    is_letter(b) || b.is_ascii_digit()
}

pub fn is_mark(b: u8) -> bool
    ensures { result ≡ is_mark b }
{
    b"(){};,=<>+-*!&".contains(&b)
}

pub fn is_double_mark(b: u8, c: u8) -> bool
    ensures { result ≡ is_double_mark b c }
{
    (c == b'=' && b"=!<>+-".contains(&b)) || (b == c && b"&|+-".contains(&b))
}

pub fn is_foreign(b: u8) -> bool
    ensures { result ≡ is_foreign b }
{
    b"\"/%[].?:|^~'#".contains(&b)
}

pub fn spaces_len(bytes: &[u8]) -> usize
    ensures exact { result ≡ prefix_len is_space bytes.now }
    ensures within { result ≤ length bytes.now }
{
    bytes.iter().take_while(|b| is_space(**b)).count()
}

pub fn word_len(bytes: &[u8]) -> usize
    ensures exact { result ≡ prefix_len is_word_byte bytes.now }
    ensures within { result ≤ length bytes.now }
{
    bytes.iter().take_while(|b| is_word_byte(**b)).count()
}

pub fn digits_len(bytes: &[u8]) -> usize
    ensures exact { result ≡ prefix_len is_ascii_digit bytes.now }
    ensures within { result ≤ length bytes.now }
{
    bytes.iter().take_while(|b| b.is_ascii_digit()).count()
}

pub fn line_len(bytes: &[u8]) -> usize
    ensures exact { result ≡ prefix_len is_in_line bytes.now }
    ensures within { result ≤ length bytes.now }
{
    bytes.iter().take_while(|b| **b != b'\n').count()
}
