use crate::runs::{run_with, spelled};
use std::alloc::{AllocError, Global};
use std::test::Fail;

/// A program of one thread, its predicates, and its table. An assertion that fails where it is not known that it holds; one that
/// fails on one of its false sides; predicates at an edge, over the columns after it and before it; a predicate over a local; one
/// of an equality's sides; facts of one location; a loop that two predicates keep.
const TABLES: &str = "\
int x; void *f(void *a) { x = 1; assert(x == 1); } MAIN =>  => s 1 0 :, s 1 1 :, s 1 2 :, s 1 3 :, e 1 1 :, e 1 2 :, e 1 3 :, e 1 4 :
int x; void *f(void *a) { x = 1; assert(x == 1); } MAIN => s 1 2 : -x <= -1, => s 1 0 :, s 1 1 :, s 1 2 : 1, s 1 3 :, e 1 1 :, e 1 2 :, e 1 4 :
int x; void *f(void *a) { x = 1; assert(x == 1); } MAIN => s 1 2 : x <= 1, s 1 2 : -x <= -1, => s 1 1 :, s 1 2 : 1 2, s 1 3 :, e 1 1 :, e 1 2 :
int x; void *f(void *a) { x = 1; assert(x == 1); } MAIN => e 1 1 : x <= 0, e 1 1 : -x' <= -1, => s 1 0 :, s 1 1 :, s 1 2 :, s 1 3 :, e 1 1 : 2, e 1 2 :, e 1 3 :, e 1 4 :
int x; void *f(void *a) { x = 1; assert(x == 1); } MAIN => e 1 1 : x - x' <= -1, s 1 1 : x <= 0, => s 1 0 :, s 1 1 : 1, s 1 2 :, s 1 3 :, e 1 1 : 1, e 1 2 :, e 1 3 :, e 1 4 :
int x; void *f(void *a) { int l; l = x; x = 1; assert(l <= 0); } MAIN => s 1 1 : x <= 0, s 1 2 : t1.l <= 0, s 1 3 : t1.l <= 0, => s 1 1 : 1, s 1 2 : 1, s 1 3 : 1, s 1 4 :, e 1 1 :, e 1 2 :, e 1 3 :
int x; void *f(void *a) { x = 5; if (x == 3) assert(0); } MAIN => s 1 2 : -x <= -4, => s 1 1 :, s 1 2 : 1, s 1 4 :, e 1 1 :, e 1 4 :
int x; void *f(void *a) { if (?) x = 1; else x = 2; x = 3; } MAIN => s 1 4 : -x <= -1, s 1 4 : -x <= -2, => s 1 1 :, s 1 2 :, s 1 3 :, s 1 4 : 1, s 1 4 : 1 2, s 1 5 :, e 1 1 :, e 1 2 :, e 1 3 :, e 1 4 :, e 1 5 :
int x; void *f(void *a) { if (?) x = 1; else x = 2; x = 3; } MAIN => s 1 4 : -x <= -2, s 1 4 : x <= 1, => s 1 1 :, s 1 2 :, s 1 3 :, s 1 4 : 1, s 1 4 : 2, s 1 5 :, e 1 1 :, e 1 2 :, e 1 3 :, e 1 4 :, e 1 5 :
int x; void *f(void *a) { if (?) ; else if (?) x = 1; else x = 2; x = 3; } MAIN => s 1 5 : -x <= -2, => s 1 1 :, s 1 2 :, s 1 3 :, s 1 4 :, s 1 5 :, s 1 5 : 1, s 1 6 :, e 1 1 :, e 1 2 :, e 1 3 :, e 1 4 :, e 1 5 :, e 1 6 :, e 1 7 :
void *f(void *a) { int i; int j; i = 0; j = 0; while (i != 5) { i = i + 1; j = j + 1; } assert(j == 5); } MAIN => \
s 1 2 : t1.i <= 0, s 1 2 : -t1.i <= 0, s 1 3 : t1.i - t1.j <= 0, s 1 3 : -t1.i + t1.j <= 0, s 1 4 : t1.i - t1.j <= 0, s 1 4 : -t1.i + t1.j <= 0, \
s 1 5 : t1.i - t1.j <= 1, s 1 5 : -t1.i + t1.j <= -1, s 1 6 : t1.j <= 5, s 1 6 : -t1.j <= -5, => \
s 1 1 :, s 1 2 : 1 2, s 1 3 : 1 2, s 1 4 : 1 2, s 1 5 : 1 2, s 1 6 : 1 2, s 1 7 :, e 1 1 :, e 1 2 :, e 1 3 :, e 1 4 :, e 1 5 :, e 1 6 :, e 1 7 :, e 1 8 :";

/// A text of lines that end with commas, but for the last, which is `end`.
pub fn lines(alloc: Global, text: &str) -> Result<String, AllocError> {
    let mut lines = text.replace(alloc, ", ", "\n")?.replace(alloc, ",", "\n")?;
    lines.push_str("end\n")?;
    Ok(lines)
}

/// The table of lines that are parted by commas.
pub fn table(alloc: Global, text: &str) -> Result<String, AllocError> {
    let mut table = text.replace(alloc, ", ", "\n")?;
    table.push_str("\nend\n")?;
    Ok(table)
}

#[test]
fn predicates_tell_facts_apart(rt: HostRuntime) -> Result<(), Fail> {
    for case in TABLES.split('\n') {
        let (text, rest) = case.split_once(" => ").ok_or("no predicates")?;
        let (predicates, facts) = rest.split_once(" => ").ok_or("no table")?;
        let text = spelled(rt.alloc(), text)?;
        let (status, written) = run_with(rt.alloc(), &text, &lines(rt.alloc(), predicates)?)?;
        assert_eq!(rt; written, table(rt.alloc(), facts)?, "{case}");
        assert_eq!(rt; status, 0, "{case}");
    }
    Ok(())
}

/// The line that is refused, and a text of predicates of a program with the locations 0 to 3 and the edges 1 to 4.
const BAD_LINES: &str = "\
1 =>
1 => end
1 => s 1 2 : x <= 0
2 => s 1 2 : x <= 0NEWLINE
2 => s 1 2 : x <= 0NEWLINEend
1 => NEWLINEendNEWLINE
1 =>  endNEWLINE
1 => end NEWLINE
1 => ENDNEWLINE
2 => endNEWLINEx
2 => endNEWLINENEWLINE
2 => endNEWLINEs 1 2 : x <= 0NEWLINE
1 => s 1 4 : x <= 0NEWLINEendNEWLINE
1 => s 2 1 : x <= 0NEWLINEendNEWLINE
1 => s 0 1 : x <= 0NEWLINEendNEWLINE
1 => e 1 5 : x <= 0NEWLINEendNEWLINE
1 => e 1 0 : x <= 0NEWLINEendNEWLINE
1 => f 1 1 : x <= 0NEWLINEendNEWLINE
1 => s 1 02 : x <= 0NEWLINEendNEWLINE
1 => s 1  2 : x <= 0NEWLINEendNEWLINE
1 => s 1 2: x <= 0NEWLINEendNEWLINE
1 => s 1 2 :x <= 0NEWLINEendNEWLINE
1 => s 1 2 x <= 0NEWLINEendNEWLINE
1 => s 1 2 : NEWLINEendNEWLINE
1 => s 1 2 : 2*x <= 4NEWLINEendNEWLINE
1 => s 1 2 : 1*x <= 4NEWLINEendNEWLINE
1 => s 1 2 : x < 4NEWLINEendNEWLINE
1 => s 1 2 : x <= 04NEWLINEendNEWLINE
1 => s 1 2 : x <= 170141183460469231731687303715884105727NEWLINEendNEWLINE
1 => s 1 2 : y <= 0NEWLINEendNEWLINE
1 => s 1 2 : x' <= 0NEWLINEendNEWLINE
1 => e 1 1 : x' - x <= 0NEWLINEendNEWLINE
1 => s 1 2 : t2.$pc <= 0NEWLINEendNEWLINE
1 => s 1 2 : x <= 0\rNEWLINEendNEWLINE
2 => s 1 2 : x <= 0NEWLINEs 1 2 : x <= 0NEWLINEendNEWLINE
4 => s 1 2 : x <= 0NEWLINEs 1 3 : x <= 0NEWLINEe 1 1 : x <= 0NEWLINEs 1 2 : x <= 0NEWLINEend";

/// The program that these are predicates of.
const ASSERTS: &str = "int x; void *f(void *a) { x = 1; assert(x == 1); } MAIN";

#[test]
fn bad_lines_are_told(rt: HostRuntime) -> Result<(), Fail> {
    let text = spelled(rt.alloc(), ASSERTS)?;
    for case in BAD_LINES.split('\n') {
        let (line, predicates) = case.split_once(" =>").ok_or("no line")?;
        let predicates = spelled(rt.alloc(), predicates.strip_prefix(" ").unwrap_or(""))?;
        let (status, written) = run_with(rt.alloc(), &text, &predicates)?;
        let refusal = format!(in rt.alloc(); "predicates line {line}\n")?;
        assert_eq!(rt; written, refusal, "{case}");
        assert_eq!(rt; status, 3, "{case}");
    }
    Ok(())
}

/// Two predicates of which the products are above 2^127: the elimination alone would leave, and the tableau decides.
const STEEP: &str = "s 1 2 : t1.p <= 0, s 1 2 : -t1.p <= 0, \
s 1 3 : 85070591730234615865843651857942052864*t1.p + t1.q <= 0, \
s 1 3 : -85070591730234615865843651857942052865*t1.p + t1.q <= 0,";

#[test]
fn numbers_that_are_too_great_for_the_elimination_are_decided(rt: HostRuntime) -> Result<(), Fail> {
    let text = "void *f(void *a) { int p; int q; p = 0; q = 0; p = 0; } MAIN";
    let text = spelled(rt.alloc(), text)?;
    let (status, written) = run_with(rt.alloc(), &text, &lines(rt.alloc(), STEEP)?)?;
    let facts = "s 1 1 :, s 1 2 : 1 2, s 1 3 : 1 2, s 1 4 :, e 1 1 :, e 1 2 :, e 1 3 :";
    assert_eq!(rt; written, table(rt.alloc(), facts)?);
    assert_eq!(rt; status, 0);
    Ok(())
}

/// Two predicates of which no sum is within 2^127: both leave.
const GREAT: &str = "s 1 2 : t1.p <= 0, s 1 2 : -t1.p <= 0, \
s 1 3 : 85070591730234615865843651857942052864*t1.p + t1.q <= -1, \
s 1 3 : -85070591730234615865843651857942052865*t1.p + t1.q <= -1,";

#[test]
fn numbers_that_are_too_great_for_both_are_left(rt: HostRuntime) -> Result<(), Fail> {
    let text = "void *f(void *a) { int p; int q; p = 0; q = -1; p = 0; } MAIN";
    let text = spelled(rt.alloc(), text)?;
    let (status, written) = run_with(rt.alloc(), &text, &lines(rt.alloc(), GREAT)?)?;
    assert_eq!(rt; written.as_str(), "UNKNOWN leaves\n");
    assert_eq!(rt; status, 4);
    Ok(())
}

#[test]
fn the_program_is_read_first(rt: HostRuntime) -> Result<(), Fail> {
    let (status, written) = run_with(rt.alloc(), "int main() { return 0; }", "no predicates")?;
    assert_eq!(rt; written.as_str(), "program E10 4\n");
    assert_eq!(rt; status, 3);
    Ok(())
}
