ghost use Rattle.std.specs.Prelude.{◌≤◌, length};
ghost use Rattle.thr_base.specs.Limits.{text_limit};

use super::*;
use std::alloc::Global;
use std::test::*;
use thr_base::{Refusal, Stop, TEXT_LIMIT};

// The kind of a token, as one letter.
fn letter(kind: Kind) -> char {
    match kind {
        Kind::Word => 'w',
        Kind::Number => 'n',
        Kind::Mark => 'm',
        Kind::Foreign => 'f',
    }
}

// The tokens as `KIND TEXT PLACE`, or the refusal as `E CODE PLACE`.
fn shown(alloc: Global, text: &str) -> Result<String, Fail>
    requires { length text.now ≤ text_limit }
{
    let mut out = String::new(alloc);
    match lex(alloc, text) {
        Ok(tokens) => {
            for t in &tokens {
                let kind = letter(t.kind);
                let text = t.text;
                let from = t.from;
                write!(out, "{kind} {text} {from},")?;
            }
        }
        Err(Stop::Refused(Refusal { code, place })) => write!(out, "E {code} {place}")?,
        Err(Stop::Memory) => out.push_str("memory")?,
    }
    Ok(out)
}

#[test]
fn token_cases(rt: HostRuntime) -> Result<(), Fail> {
    let cases = [
        ("", ""),
        (" \t\r\n", ""),
        ("+++", "m ++ 0,m + 2,"),
        ("a+=-1", "w a 0,m += 1,m - 3,n 1 4,"),
        ("a<=b<c", "w a 0,m <= 1,w b 3,m < 4,w c 5,"),
        ("x=!=y", "w x 0,m = 1,m != 2,w y 4,"),
        ("&&&|||", "m && 0,m & 2,m || 3,f | 5,"),
        ("0", "n 0 0,"),
        ("0x1", "E 3 0"),
        ("1a", "E 3 0"),
        (" 1_", "E 3 1"),
        ("007", "E 3 0"),
        ("00", "E 3 0"),
        ("_a9 Z", "w _a9 0,w Z 4,"),
        ("/*/", "E 2 0"),
        ("a /* */ b", "w a 0,w b 8,"),
        ("/**/*", "m * 4,"),
        ("a /*", "E 2 2"),
        ("a//", "w a 0,"),
        ("// a\nb", "w b 5,"),
        ("/", "f / 0,"),
        ("/* \u{e9} */ a // \u{20ac}", "w a 9,"),
        ("a \u{e9}", "E 2 2"),
        ("@", "E 2 0"),
        ("a\\", "E 2 1"),
        ("\t#include <a> /*\nb", "w b 17,"),
        ("# \tinclude", ""),
        ("#includes", "f # 0,w includes 1,"),
        ("#define a", "f # 0,w define 1,w a 8,"),
        ("#/**/include", "f # 0,w include 5,"),
        ("\r#include", "f # 1,w include 2,"),
        ("a #include", "w a 0,f # 2,w include 3,"),
        ("/*\n#include*/", ""),
        ("/*\n*/#include", "f # 5,w include 6,"),
        (
            "[\"'?:.%^~]",
            "f [ 0,f \" 1,f ' 2,f ? 3,f : 4,f . 5,f % 6,f ^ 7,f ~ 8,f ] 9,",
        ),
        (
            "170141183460469231731687303715884105727",
            "n 170141183460469231731687303715884105727 0,",
        ),
        ("int x = 170141183460469231731687303715884105728;", "E 3 8"),
        ("@1a", "E 2 0"),
        ("1a@", "E 3 0"),
    ];
    for (text, tokens) in cases {
        assert!(rt; text.len() <= TEXT_LIMIT as usize);
        assert_eq!(rt; shown(rt.alloc(), text)?.as_str(), tokens);
    }
    Ok(())
}
