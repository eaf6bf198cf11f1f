//! Texts as long as they may be, of one kind of thing each.

use crate::runs::{numbered, run, spelled, times};
use std::alloc::Global;
use std::str::FromStr;
use std::test::Fail;

/// A part of a text so many times, in which `#` stands for its number from 0 on.
fn repeated(alloc: Global, count: u32, part: &str) -> Result<String, Fail> {
    match part.split_once("#") {
        Some((front, back)) => numbered(alloc, count, front, back),
        None => Ok(times(alloc, count, part)?),
    }
}

/// How often a part stands, what stands in front of it, the part, what stands behind it, and the answer.
const LONG: &str = "\
60000||int x#;|void *f(void *a) { } MAIN|program E11 648915
60000|int x|,x#|;void *f(void *a) { } MAIN|program E11 408921
60000|void *f(void *a) { |int x#;| } MAIN|program E11 648916
30000|void *f(void *a) { |{int k;}| } MAIN|program E11 240026";

const DEEP: &str = "\
200000|int x; void *f(void *a) { x=1|+1|; } MAIN|s 1 1 :, s 1 2 :, e 1 1 :, end
200000|int x; void *f(void *a) { x=1|+x|; } MAIN|program E11 400037
50000|int x; void *f(void *a) { if (x|&&x|) ; } MAIN|program E11 13";

const EMPTY: &str = "\
20000||void*f#(){}|void *f(void *a) { } MAIN|s 1 1 :, end
1000000|void *f(void *a) { |;|} MAIN|s 1 1 :, end";

/// The first case that has another answer, with that.
fn first_other(alloc: Global, cases: &str) -> Result<String, Fail> {
    for case in cases.split('\n') {
        let (count, rest) = case.split_once("|").ok_or("no front")?;
        let (front, rest) = rest.split_once("|").ok_or("no part")?;
        let (part, rest) = rest.split_once("|").ok_or("no back")?;
        let (back, answer) = rest.split_once("|").ok_or("no answer")?;
        let filling = repeated(alloc, u32::from_str(count)?, part)?;
        let text = spelled(alloc, &format!(in alloc; "{front}{filling}{back}")?)?;
        let (status, written) = run(alloc, "tables x.c", &text)?;
        let lines = answer.replace(alloc, ", ", "\n")?;
        let wanted = format!(in alloc; "{lines}\n")?;
        let refused = answer.starts_with("program");
        let wanted_status = if refused { 3 } else { 0 };
        if written != wanted {
            return Ok(format!(in alloc; "{case}: {written}")?);
        }
        if status != wanted_status {
            return Ok(format!(in alloc; "{case}: {status}")?);
        }
    }
    Ok(String::new(alloc))
}

#[test]
fn long_declarations_are_counted(rt: HostRuntime) -> Result<(), Fail> {
    assert_eq!(rt; first_other(rt.alloc(), LONG)?.as_str(), "");
    Ok(())
}

#[test]
fn long_expressions_are_cut(rt: HostRuntime) -> Result<(), Fail> {
    assert_eq!(rt; first_other(rt.alloc(), DEEP)?.as_str(), "");
    Ok(())
}

#[test]
fn long_texts_may_do_nothing(rt: HostRuntime) -> Result<(), Fail> {
    assert_eq!(rt; first_other(rt.alloc(), EMPTY)?.as_str(), "");
    Ok(())
}
