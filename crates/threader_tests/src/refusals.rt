//! One refusal of each rule, at its place.

use crate::runs::{one, run, run_bytes, run_with, two};
use std::test::Fail;

#[test]
fn a_byte_that_is_no_text(rt: HostRuntime) -> Result<(), Fail> {
    let (status, written) = run_bytes(rt.alloc(), &[255])?;
    assert_eq!(rt; written.as_str(), "program E1 0\n");
    assert_eq!(rt; status, 3);
    Ok(())
}

/// The answer, and a whole text.
const WHOLE: &str = "\
E2 0 => @
E4 5 => int x
E9 0 =>
E9 13 => int main() { int k; return 0; }
E10 4 => int main() { return 0; }";

#[test]
fn whole_texts_that_are_refused(rt: HostRuntime) -> Result<(), Fail> {
    for case in WHOLE.split('\n') {
        let (answer, text) = case.split_once(" =>").ok_or("no text")?;
        let text = text.strip_prefix(" ").unwrap_or("");
        let (status, written) = run(rt.alloc(), "tables x.c", text)?;
        assert_eq!(rt;
            written,
            format!(in rt.alloc(); "program {answer}\n")?,
            "{case}"
        );
        assert_eq!(rt; status, 3, "{case}");
    }
    Ok(())
}

/// The answer, what is declared, and what the one thread does.
const BODIES: &str = "\
E3 8 => int x = 170141183460469231731687303715884105728; =>
E5 20 =>  => do ; while (0);
E6 26 => int x; => y = 1;
E7 11 => int x; int x; =>
E8 32 => int x; => x = x * x;
E12 47 =>  => __VERIFIER_atomic_begin(); while (0) ; __VERIFIER_atomic_end();
E13 31 =>  => int l; l = 170141183460469231731687303715884105727 + 1;";

#[test]
fn bodies_that_are_refused(rt: HostRuntime) -> Result<(), Fail> {
    for case in BODIES.split('\n') {
        let (answer, rest) = case.split_once(" => ").ok_or("no text")?;
        let (globals, body) = rest.split_once(" =>").ok_or("no body")?;
        let body = body.strip_prefix(" ").unwrap_or("");
        let text = one(rt.alloc(), globals, body)?;
        let (status, written) = run(rt.alloc(), "tables x.c", &text)?;
        assert_eq!(rt;
            written,
            format!(in rt.alloc(); "program {answer}\n")?,
            "{case}"
        );
        assert_eq!(rt; status, 3, "{case}");
    }
    Ok(())
}

#[test]
fn the_greatest_first_value_is_read(rt: HostRuntime) -> Result<(), Fail> {
    let globals = "int x = 170141183460469231731687303715884105727;";
    let (status, written) = run(rt.alloc(), "tables x.c", &one(rt.alloc(), globals, "")?)?;
    assert_eq!(rt; written.as_str(), "s 1 1 :\nend\n");
    assert_eq!(rt; status, 0);
    Ok(())
}

#[test]
fn predicates_are_read_behind_the_program(rt: HostRuntime) -> Result<(), Fail> {
    let sum = "int l; l = 170141183460469231731687303715884105727 + 1;";
    for (body, answer) in [("", "predicates line 1\n"), (sum, "program E13 31\n")] {
        let text = two(rt.alloc(), "", body, "")?;
        let (status, written) = run_with(rt.alloc(), &text, "no predicates")?;
        assert_eq!(rt; written.as_str(), answer, "{body}");
        assert_eq!(rt; status, 3, "{body}");
    }
    Ok(())
}
