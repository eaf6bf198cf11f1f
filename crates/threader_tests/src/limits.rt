use crate::runs::{ASSIGNS_ONCE, ITS_TABLE, numbered, run, run_with, spelled, times};
use std::alloc::Global;
use std::str::FromStr;
use std::test::Fail;

/// The status and what is written, where so many fronts, what is inside and so many backs are a function's body.
fn run_body(
    alloc: Global,
    count: u32,
    front: &str,
    inside: &str,
    back: &str,
) -> Result<(u8, String), Fail> {
    let fronts = times(alloc, count, front)?;
    let backs = times(alloc, count, back)?;
    let text = format!(in alloc; "int x; void *f(void *a) {{ {fronts}{inside}{backs} }} MAIN")?;
    run(alloc, "tables x.c", &spelled(alloc, &text)?)
}

/// The last count at which a body is accepted, the answer at the next, and the front, the inside and the back. A function
/// has 256 locations: one for each action, the failing one, and the exit. Statements lie in 64 levels, where the block
/// of an `else` is part of the nearer `if`.
const LIMITS: &str = "\
254|E11 13|x=1;||
254|E11 13|if(?);||
127|E11 13|x++;||
64|E11 90|{||}
63|E11 90|{|x = 1;|}
63|E11 1946|while(?)|;|
63|E11 2132|if(?);else |;|
60|E11 151|{|if(?) if(?); else { ; }|}";

#[test]
fn bodies_have_limits(rt: HostRuntime) -> Result<(), Fail> {
    for case in LIMITS.split('\n') {
        let mut parts = case.split('|');
        let count = u8::from_str(parts.next().ok_or("no count")?)?;
        let answer = parts.next().ok_or("no answer")?;
        let front = parts.next().ok_or("no front")?;
        let inside = parts.next().ok_or("no inside")?;
        let back = parts.next().ok_or("no back")?;
        let (within, _table) = run_body(rt.alloc(), count as u32, front, inside, back)?;
        assert_eq!(rt; within, 0, "{case}");
        let (past, written) = run_body(rt.alloc(), count as u32 + 1, front, inside, back)?;
        assert_eq!(rt; past, 3, "{case}");
        let refusal = format!(in rt.alloc(); "program {answer}\n")?;
        assert_eq!(rt; written, refusal, "{case}");
    }
    Ok(())
}

/// The last count at which an atomic block is accepted that holds what follows so many times. It has 64 paths: all picks count,
/// also those that no values take.
const PATHS: &str = "\
6|if (?) ;
3|if (x == 0) ;
3|if (1 == 1) ;
63|assert(x > 0);
31|assert(x == 0);
6|__VERIFIER_assume(x != 0);";

/// The status and what is written, where an atomic block has this so many times.
fn run_block(alloc: Global, count: u32, inside: &str) -> Result<(u8, String), Fail> {
    let inside = times(alloc, count, inside)?;
    run_body(
        alloc,
        1,
        "__VERIFIER_atomic_begin();",
        &inside,
        "__VERIFIER_atomic_end();",
    )
}

#[test]
fn atomic_blocks_have_limits(rt: HostRuntime) -> Result<(), Fail> {
    for case in PATHS.split('\n') {
        let (count, inside) = case.split_once("|").ok_or("no count")?;
        let count = u8::from_str(count)?;
        let (within, _table) = run_block(rt.alloc(), count as u32, inside)?;
        assert_eq!(rt; within, 0, "{case}");
        let (past, written) = run_block(rt.alloc(), count as u32 + 1, inside)?;
        assert_eq!(rt; past, 3, "{case}");
        assert_eq!(rt; written.as_str(), "program E11 26\n", "{case}");
    }
    Ok(())
}

/// A program of so many variables, and a thread that does nothing.
fn with_variables(alloc: Global, count: u32) -> Result<String, Fail> {
    let variables = numbered(alloc, count, "int x", "; ")?;
    Ok(spelled(
        alloc,
        &format!(in alloc; "{variables}void *f(void *a) {{ }} MAIN")?,
    )?)
}

#[test]
fn a_program_has_64_columns(rt: HostRuntime) -> Result<(), Fail> {
    // the last column is the thread's counter
    let (status, written) = run(rt.alloc(), "tables x.c", &with_variables(rt.alloc(), 63)?)?;
    assert_eq!(rt; written.as_str(), "s 1 1 :\nend\n");
    assert_eq!(rt; status, 0);
    let past = with_variables(rt.alloc(), 64)?;
    let (status, written) = run(rt.alloc(), "tables x.c", &past)?;
    let (front, _main) = past.split_once("main").ok_or("no main")?;
    let refusal = format!(in rt.alloc(); "program E11 {}\n", front.len())?;
    assert_eq!(rt; written, refusal);
    assert_eq!(rt; status, 3);
    Ok(())
}

/// What is written, where a text of 1,048,576 bytes has this so many times between a front and a back.
fn run_long(
    alloc: Global,
    front: &str,
    count: u32,
    inside: &str,
    back: &str,
) -> Result<String, Fail> {
    let filling = times(alloc, count, inside)?;
    let text = spelled(alloc, &format!(in alloc; "{front}{filling}{back}")?)?;
    if text.len() != 1_048_576 {
        return Err("another length")?;
    }
    let (_status, written) = run(alloc, "tables x.c", &text)?;
    Ok(written)
}

#[test]
fn the_longest_comment_is_skipped(rt: HostRuntime) -> Result<(), Fail> {
    let front = "int x; void *f(void *a) { x = 1; /*";
    let written = run_long(rt.alloc(), front, 1_048_470, "x", "*/ } MAIN")?;
    assert_eq!(rt; written.as_str(), ITS_TABLE);
    Ok(())
}

#[test]
fn a_long_body_has_too_many_locations(rt: HostRuntime) -> Result<(), Fail> {
    let filling = times(rt.alloc(), 60_000, "x=1;")?;
    let text = spelled(
        rt.alloc(),
        &format!(in rt.alloc(); "int x; void *f(void *a) {{ {filling} }} MAIN")?,
    )?;
    let (status, written) = run(rt.alloc(), "tables x.c", &text)?;
    assert_eq!(rt; written.as_str(), "program E11 13\n");
    assert_eq!(rt; status, 3);
    Ok(())
}

#[test]
fn the_largest_program_ends_by_a_budget(rt: HostRuntime) -> Result<(), Fail> {
    // eight threads of 256 locations each
    let body = times(rt.alloc(), 254, "x = 1; ")?;
    let created = times(rt.alloc(), 8, "pthread_create(&t, 0, f, 0); ")?;
    let text = format!(in rt.alloc();
        "int x; void *f(void *a) {{ {body} }} int main() {{ pthread_t t; {created} return 0; }}"
    )?;
    let (status, written) = run(rt.alloc(), "tables x.c", &text)?;
    assert_eq!(rt; written.as_str(), "UNKNOWN jobs 200000\n");
    assert_eq!(rt; status, 4);
    Ok(())
}

#[test]
fn a_text_has_a_limit(rt: HostRuntime) -> Result<(), Fail> {
    for (count, wanted) in [
        (1_048_576, "program E9 1048576\n"),
        (1_048_577, "program long\n"),
    ] {
        let (status, written) = run(rt.alloc(), "tables x.c", &times(rt.alloc(), count, " ")?)?;
        assert_eq!(rt; status, 3, "{count} blanks");
        assert_eq!(rt; written.as_str(), wanted, "{count} blanks");
    }
    Ok(())
}

#[test]
fn predicates_have_a_limit(rt: HostRuntime) -> Result<(), Fail> {
    for (count, wanted) in [
        (1_048_576, "predicates line 1\n"),
        (1_048_577, "predicates long\n"),
    ] {
        let blanks = times(rt.alloc(), count, " ")?;
        let (status, written) = run_with(rt.alloc(), ASSIGNS_ONCE, &blanks)?;
        assert_eq!(rt; status, 3, "{count} blanks");
        assert_eq!(rt; written.as_str(), wanted, "{count} blanks");
    }
    Ok(())
}
