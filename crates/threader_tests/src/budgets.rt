//! Programs that meet a budget of a run, and a program at all its limits.

use crate::runs::{numbered, run, spelled, times};
use std::alloc::{AllocError, Global};
use std::str::FromStr;
use std::test::Fail;

/// A thread of so many atomic blocks, each of six choices and so with 64 edges.
fn with_blocks(alloc: Global, count: u32) -> Result<String, Fail> {
    let choices = times(alloc, 6, "if (?) ;")?;
    let block = format!(in alloc;
        "__VERIFIER_atomic_begin(); {choices} __VERIFIER_atomic_end(); "
    )?;
    let blocks = times(alloc, count, &block)?;
    Ok(spelled(
        alloc,
        &format!(in alloc; "void *f(void *a) {{ {blocks}}} MAIN")?,
    )?)
}

/// The lines of the first homes of a thread, so many, where nothing is held at each.
fn first_lines(alloc: Global, kind: &str, count: u32) -> Result<String, AllocError> {
    let mut lines = String::new(alloc);
    for number in 1..=count {
        lines.push_str(&format!(in alloc; "{kind} 1 {number} :\n")?)?;
    }
    Ok(lines)
}

#[test]
fn a_table_has_as_many_facts_as_are_allowed(rt: HostRuntime) -> Result<(), Fail> {
    // 64 locations, and 64 edges of each block
    let (status, written) = run(rt.alloc(), "tables x.c", &with_blocks(rt.alloc(), 63)?)?;
    let states = first_lines(rt.alloc(), "s", 64)?;
    let edges = first_lines(rt.alloc(), "e", 4032)?;
    let table = format!(in rt.alloc(); "{states}{edges}end\n")?;
    assert_eq!(rt; written, table);
    assert_eq!(rt; status, 0);
    Ok(())
}

/// The words, how many blocks there are, and the answer.
const TOO_MANY: &str = "\
tables x.c|64|facts 4096
tables x.c --facts 4095|63|facts 4095
tables x.c --facts=1|1|facts 1
tables x.c --jobs 4000|63|jobs 4000";

#[test]
fn a_run_ends_by_its_budgets(rt: HostRuntime) -> Result<(), Fail> {
    for case in TOO_MANY.split('\n') {
        let (words, rest) = case.split_once("|").ok_or("no count")?;
        let (count, answer) = rest.split_once("|").ok_or("no answer")?;
        let text = with_blocks(rt.alloc(), u8::from_str(count)? as u32)?;
        let (status, written) = run(rt.alloc(), words, &text)?;
        let unknown = format!(in rt.alloc(); "UNKNOWN {answer}\n")?;
        assert_eq!(rt; written, unknown, "{case}");
        assert_eq!(rt; status, 4, "{case}");
    }
    Ok(())
}

/// Eight threads of 256 locations each, with 64 columns, whose last action is an atomic block of so many choices.
fn at_its_limits(alloc: Global, choices: u32) -> Result<String, Fail> {
    let variables = numbered(alloc, 48, "int x", "; ")?;
    let assignments = times(alloc, 253, "x0 = k; ")?;
    let choices = times(alloc, choices, "if (?) ; ")?;
    let created = times(alloc, 8, "pthread_create(&t, 0, f, 0); ")?;
    let text = format!(in alloc;
        "{variables}void *f(void *a) {{ int k; {assignments}__VERIFIER_atomic_begin(); {choices}__VERIFIER_atomic_end(); }} int main() {{ pthread_t t; {created}return 0; }}"
    )?;
    Ok(spelled(alloc, &text)?)
}

#[test]
fn a_program_at_all_its_limits_is_built(rt: HostRuntime) -> Result<(), Fail> {
    let within = at_its_limits(rt.alloc(), 6)?;
    let (status, written) = run(rt.alloc(), "tables x.c --jobs 1000", &within)?;
    assert_eq!(rt; written.as_str(), "UNKNOWN jobs 1000\n");
    assert_eq!(rt; status, 4);
    // the 48 declarations have 422 bytes, what is in front of the assignments 26, and these 2,024
    let past = at_its_limits(rt.alloc(), 7)?;
    let (status, written) = run(rt.alloc(), "tables x.c --jobs 1000", &past)?;
    assert_eq!(rt; written.as_str(), "program E11 2472\n");
    assert_eq!(rt; status, 3);
    Ok(())
}
