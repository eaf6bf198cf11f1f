use crate::runs::{ASSIGNS_ONCE, ITS_TABLE, bare_table, run, spelled};
use std::test::Fail;

#[test]
fn main_alone_is_refused(rt: HostRuntime) -> Result<(), Fail> {
    let (status, written) = run(rt.alloc(), "tables x.c", "int main() { return 0; }")?;
    assert_eq!(rt; status, 3);
    assert_eq!(rt; written.as_str(), "program E10 4\n");
    Ok(())
}

/// The word `main` in front of other words, behind comments, and in one.
const MAINS: &str = "\
4 => int main() { return 0; }
17 => /* main */   int main() { return 0; }
17 => // main \u{e9} NEWLINE int main() { return 0; }
36 => int x; void *f(void *main_) { } int main() { return 0; }";

#[test]
fn the_place_of_main_is_told(rt: HostRuntime) -> Result<(), Fail> {
    for case in MAINS.split('\n') {
        let (place, text) = case.split_once(" => ").ok_or("no place")?;
        let (status, written) = run(rt.alloc(), "tables x.c", &spelled(rt.alloc(), text)?)?;
        let refusal = format!(in rt.alloc(); "program E10 {place}\n")?;
        assert_eq!(rt; status, 3, "{case}");
        assert_eq!(rt; written, refusal, "{case}");
    }
    Ok(())
}

#[test]
fn an_assignment_has_four_lines(rt: HostRuntime) -> Result<(), Fail> {
    let (status, written) = run(rt.alloc(), "tables x.c", ASSIGNS_ONCE)?;
    assert_eq!(rt; status, 0);
    assert_eq!(rt; written.as_str(), ITS_TABLE);
    Ok(())
}

#[test]
fn an_assertion_of_zero_fails(rt: HostRuntime) -> Result<(), Fail> {
    let text = spelled(rt.alloc(), "void *f(void *a) { assert(0); } MAIN")?;
    let (status, written) = run(rt.alloc(), "tables x.c", &text)?;
    assert_eq!(rt; status, 0);
    assert_eq!(rt; written.as_str(), "s 1 0 :\ns 1 1 :\ne 1 1 :\nend\n");
    Ok(())
}

/// A program of one thread, and the lines of its table: no action, actions behind a failing assertion, choices, loops.
const ONE_THREAD: &str = "\
int x = 170141183460469231731687303715884105727;NEWLINEvoid *f(void *a) {  }NEWLINEMAINNEWLINE => s 1 1
#include <pthread.h>NEWLINEint x; /* shared */ void *f(void *a) { x = 1; } MAIN // done => s 1 1, s 1 2, e 1 1
int x; void *f(void *a) { } MAIN => s 1 1
int x; void *f(void *a) { ; { } { ; { } } } MAIN => s 1 1
int x; void *f(void *a) { ; { } x = 1; { ; } } MAIN => s 1 1, s 1 2, e 1 1
int x; void *f(void *a) { x = -7; x = 0; x = - 1; } MAIN => s 1 1, s 1 2, s 1 3, s 1 4, e 1 1, e 1 2, e 1 3
int x; void *f(void *a) { assert(0); x = 1; } MAIN => s 1 0, s 1 1, e 1 1
int x; void *f(void *a) { { assert(0); } { x = 1; assert(0); } } MAIN => s 1 0, s 1 1, e 1 1
int x; void *f(void *a) { if (?) ; } MAIN => s 1 1, s 1 2, e 1 1, e 1 2
int x; void *f(void *a) { if (?) x = 1; } MAIN => s 1 1, s 1 2, s 1 3, e 1 1, e 1 2, e 1 3
int x; void *f(void *a) { if (?) assert(0); } MAIN => s 1 0, s 1 1, s 1 2, s 1 3, e 1 1, e 1 2, e 1 3
int x; void *f(void *a) { if (?) { assert(0); x = 1; } x = 2; } MAIN => s 1 0, s 1 1, s 1 2, s 1 4, s 1 5, e 1 1, e 1 2, e 1 3, e 1 5
int x; void *f(void *a) { if (?) assert(0); else x = 1; } MAIN => s 1 0, s 1 1, s 1 2, s 1 3, s 1 4, e 1 1, e 1 2, e 1 3, e 1 4
int x; void *f(void *a) { if (?) assert(0); else assert(0); x = 1; } MAIN => s 1 0, s 1 1, s 1 2, s 1 3, e 1 1, e 1 2, e 1 3, e 1 4
int x; void *f(void *a) { if (?) ; else { } assert(0); } MAIN => s 1 0, s 1 1, s 1 2, e 1 1, e 1 2, e 1 3
int x; void *f(void *a) { if (?) if (?) x = 1; else assert(0); x = 2; } MAIN => s 1 0, s 1 1, s 1 2, s 1 3, s 1 4, s 1 5, s 1 6, e 1 1, e 1 2, e 1 3, e 1 4, e 1 5, e 1 6, e 1 7
int x; void *f(void *a) { while (?) ; } MAIN => s 1 1, s 1 2, e 1 1, e 1 2
int x; void *f(void *a) { while (?) x = 1; } MAIN => s 1 1, s 1 2, s 1 3, e 1 1, e 1 2, e 1 3
int x; void *f(void *a) { while (?) { } assert(0); } MAIN => s 1 0, s 1 1, s 1 2, e 1 1, e 1 2, e 1 3
int x; void *f(void *a) { while (?) { assert(0); x = 1; } } MAIN => s 1 0, s 1 1, s 1 2, s 1 4, e 1 1, e 1 2, e 1 3
int x; void *f(void *a) { while (?) while (?) x = 1; } MAIN => s 1 1, s 1 2, s 1 3, s 1 4, e 1 1, e 1 2, e 1 3, e 1 4, e 1 5
int x; void *f(void *a) { while (?) { while (?) x = 1; assert(0); x = 2; } } MAIN => s 1 0, s 1 1, s 1 2, s 1 3, s 1 4, s 1 6, e 1 1, e 1 2, e 1 3, e 1 4, e 1 5, e 1 6
int x; void *f(void *a) { assert(0); while (?) x = 1; } MAIN => s 1 0, s 1 1, e 1 1
int x; void *f(void *a) { x = 1; assert(x == 1); } MAIN => s 1 0, s 1 1, s 1 2, s 1 3, e 1 1, e 1 2, e 1 3, e 1 4
int x; void *f(void *a) { if (x == 0) x = 1; } MAIN => s 1 1, s 1 2, s 1 3, e 1 1, e 1 2, e 1 3, e 1 4
int x; void *f(void *a) { while (x != 0) x = 1; } MAIN => s 1 1, s 1 2, s 1 3, e 1 1, e 1 2, e 1 3, e 1 4
int x; void *f(void *a) { if (x < 0) ; else x = 1; } MAIN => s 1 1, s 1 2, s 1 3, e 1 1, e 1 2, e 1 3
void *f(void *a) { int k; k = 2 * k + 1; __VERIFIER_assume(k == 3); assert(k >= 3); } MAIN => s 1 0, s 1 1, s 1 2, s 1 3, s 1 4, e 1 1, e 1 2, e 1 3, e 1 4
void *f(void *a) { int k; __VERIFIER_assume(k != 3); __VERIFIER_assume(k > 3); } MAIN => s 1 1, s 1 2, s 1 3, e 1 1, e 1 2, e 1 3";

/// A program of two threads, and the lines of its table.
const TWO_THREADS: &str = "\
int x; void *f(void *a) { x = 1; } int main() { pthread_t t; pthread_create(&t, 0, f, 0); pthread_create(&t, 0, f, 0); return 0; } => s 1 1, s 1 2, s 2 1, s 2 2, e 1 1, e 2 1
int x; void *f(void *a) { x = 1; } void *g(void *b) { assert(0); } int main() { pthread_t t; pthread_create(&t, 0, f, 0); pthread_create(&t, 0, g, 0); return 0; } => s 1 1, s 1 2, s 2 0, s 2 1, e 1 1, e 2 1
int x; void *f(void *a) { x = 1; } void *g(void *b) { assert(0); } int main() { pthread_t t; pthread_create(&t, 0, g, 0); pthread_create(&t, 0, f, 0); return 0; } => s 1 0, s 1 1, s 2 1, s 2 2, e 1 1, e 2 1
int x; void *f(void *a) { assert(0); x = 1; } void *g(void *b) { x = 1; x = 2; } int main() { pthread_t t; pthread_create(&t, 0, f, 0); pthread_create(&t, 0, g, 0); return 0; } => s 1 0, s 1 1, s 2 1, s 2 2, s 2 3, e 1 1, e 2 1, e 2 2
void *f(void *a) { } void *g(void *b) { while (?) { if (?) assert(0); } } int main() { pthread_t t; pthread_create(&t, 0, f, 0); pthread_create(&t, 0, g, 0); return 0; } => s 1 1, s 2 0, s 2 1, s 2 2, s 2 3, s 2 4, e 2 1, e 2 2, e 2 3, e 2 4, e 2 5
int x; void *f(void *a) { int k; k = x; if (k > 3) x = 0; } void *g(void *b) { int l; x = l; assert(x != 7); } int main() { pthread_t t; pthread_create(&t, 0, f, 0); pthread_create(&t, 0, g, 0); return 0; } => s 1 1, s 1 2, s 1 3, s 1 4, s 2 0, s 2 1, s 2 2, s 2 3, e 1 1, e 1 2, e 1 3, e 1 4, e 2 1, e 2 2, e 2 3, e 2 4
int x; void *f(void *a) { int k; k = x; x = k + 1; } int main() { pthread_t t; pthread_create(&t, 0, f, 0); pthread_create(&t, 0, f, 0); return 0; } => s 1 1, s 1 2, s 1 3, s 2 1, s 2 2, s 2 3, e 1 1, e 1 2, e 2 1, e 2 2";

#[test]
fn small_programs_have_their_tables(rt: HostRuntime) -> Result<(), Fail> {
    for cases in [ONE_THREAD, TWO_THREADS] {
        for case in cases.split('\n') {
            let (text, lines) = case.split_once(" => ").ok_or("no table")?;
            let (status, written) = run(rt.alloc(), "tables x.c", &spelled(rt.alloc(), text)?)?;
            assert_eq!(rt; status, 0, "{case}");
            assert_eq!(rt; written, bare_table(rt.alloc(), lines)?, "{case}");
        }
    }
    Ok(())
}
