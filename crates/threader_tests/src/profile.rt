//! What the profile has, text by text, with the table of each: declarations, expressions, and statements with their locations.

use crate::runs::{bare_table, run, spelled};
use std::test::Fail;

/// What the text has, a program, and the lines of its table.
const WRITTEN: &str = "\
an assertion of one => void *f(void *a) { assert(1); } MAIN => s 1 1, s 1 2, e 1 1
an assertion of a variable => int x; void *f(void *a) { assert(x); } MAIN => s 1 0, s 1 1, s 1 2, e 1 1, e 1 2, e 1 3
an assertion of a sum => int x; void *f(void *a) { assert(x + 1 == 2); } MAIN => s 1 0, s 1 1, s 1 2, e 1 1, e 1 2, e 1 3
a comparison that begins with its number => int x; void *f(void *a) { assert(0 == x); } MAIN => s 1 0, s 1 1, s 1 2, e 1 1, e 1 2, e 1 3
a comparison of two locals => void *f(void *a) { int k; int l; assert(k == l); } MAIN => s 1 0, s 1 1, s 1 2, e 1 1, e 1 2, e 1 3
a comparison of two variables => int x; int y; void *f(void *a) { assert(x == y); } MAIN => s 1 0, s 1 1, s 1 2, s 1 3, s 1 4, e 1 1, e 1 2, e 1 3, e 1 4, e 1 5
a variable compared with itself => int x; void *f(void *a) { assert(x <= x); } MAIN => s 1 0, s 1 1, s 1 2, s 1 3, s 1 4, e 1 1, e 1 2, e 1 3, e 1 4
a local compared with itself => void *f(void *a) { int k; assert(k <= k); } MAIN => s 1 1, s 1 2, e 1 1
a comparison that is denied => int x; void *f(void *a) { if (!(x == 0)) x = 1; } MAIN => s 1 1, s 1 2, s 1 3, e 1 1, e 1 2, e 1 3, e 1 4
a condition that is a number => void *f(void *a) { while (1) ; } MAIN => s 1 1, e 1 1
a loop that is never done => int x; void *f(void *a) { while (0) x = 1; } MAIN => s 1 1, s 1 3, e 1 1
a `return` in a thread => int x; void *f(void *a) { return 0; x = 1; } MAIN => s 1 1, s 1 3, e 1 1
an exit in a thread => int x; void *f(void *a) { pthread_exit(0); x = 1; } MAIN => s 1 1, s 1 3, e 1 1
two handles in one declaration => void *f(void *a) { } int main() { pthread_t t, u; pthread_create(&t, 0, f, 0); return 0; } => s 1 1
a `main` without a result => void *f(void *a) { } int main(void) { pthread_t t; pthread_create(&t, 0, f, 0); } => s 1 1
a local with its own value => void *f(void *a) { int k = k; } MAIN => s 1 1, s 1 2, e 1 1
a local with a value => void *f(void *a) { int k = 1; } MAIN => s 1 1, s 1 2, e 1 1
two locals in one declaration => void *f(void *a) { int k, l; } MAIN => s 1 1
two locals with values => void *f(void *a) { int k = 1, l = k; } MAIN => s 1 1, s 1 2, s 1 3, e 1 1, e 1 2
a local behind a statement => void *f(void *a) { ; int k; } MAIN => s 1 1
a local in a block => void *f(void *a) { { int k; } } MAIN => s 1 1
a `long` local => void *f(void *a) { long k; } MAIN => s 1 1
two variables in one declaration => int x, y; void *f(void *a) { } MAIN => s 1 1
a `long` variable => long int x; void *f(void *a) { } MAIN => s 1 1
a `static` variable => static int x; void *f(void *a) { } MAIN => s 1 1
a first value with a sign => int x = -1; void *f(void *a) { } MAIN => s 1 1
a variable behind a thread function => void *f(void *a) { } int x; MAIN => s 1 1
a lock => pthread_mutex_t m = PTHREAD_MUTEX_INITIALIZER; void *f(void *a) { } MAIN => s 1 1
a prototype of the profile => extern void abort(void); void *f(void *a) { } MAIN => s 1 1
a prototype of a thread function => void *f(void *a); void *f(void *a) { } MAIN => s 1 1
an error function => void reach_error() { } void *f(void *a) { } MAIN => s 1 1
a thread function without a parameter => void *f() { } MAIN => s 1 1
two signs => int x; void *f(void *a) { x = - -1; } MAIN => s 1 1, s 1 2, e 1 1
a variable that is assigned and read => int x; void *f(void *a) { x = x; } MAIN => s 1 1, s 1 2, s 1 3, e 1 1, e 1 2
a variable that is assigned and added => int x; void *f(void *a) { x = x + 1; } MAIN => s 1 1, s 1 2, s 1 3, e 1 1, e 1 2
a variable that is read twice => int x; void *f(void *a) { int k; k = x - x; } MAIN => s 1 1, s 1 2, s 1 3, s 1 4, e 1 1, e 1 2, e 1 3
two variables that are read => int x; int y; void *f(void *a) { int k; k = 2 * x + 3 * y; } MAIN => s 1 1, s 1 2, s 1 3, s 1 4, e 1 1, e 1 2, e 1 3
a variable that is read for another => int x; int y; void *f(void *a) { x = 1 - y; } MAIN => s 1 1, s 1 2, s 1 3, e 1 1, e 1 2
three accesses in one statement => int x; int y; int z; void *f(void *a) { x = y + z; } MAIN => s 1 1, s 1 2, s 1 3, s 1 4, e 1 1, e 1 2, e 1 3
two accesses in a function that no thread runs => int x; void *g(void *a) { x = x; } void *f(void *a) { } MAIN => s 1 1
a name times a number => void *f(void *a) { int k; k = k * 2; } MAIN => s 1 1, s 1 2, e 1 1
a number times a number => void *f(void *a) { int k; k = 2 * 2; } MAIN => s 1 1, s 1 2, e 1 1
a value in parentheses => int x; void *f(void *a) { x = (1); } MAIN => s 1 1, s 1 2, e 1 1
a value that is chosen => int x; void *f(void *a) { x = ?; } MAIN => s 1 1, s 1 2, e 1 1
an increment => int x; void *f(void *a) { x++; } MAIN => s 1 1, s 1 2, s 1 3, e 1 1, e 1 2
an increment of a local => void *f(void *a) { int k; ++k; } MAIN => s 1 1, s 1 2, e 1 1
an addition to a variable => int x; void *f(void *a) { x += 1; } MAIN => s 1 1, s 1 2, s 1 3, e 1 1, e 1 2
a failing call => void *f(void *a) { reach_error(); } MAIN => s 1 0, s 1 1, e 1 1
an end of all runs => int x; void *f(void *a) { abort(); x = 1; } MAIN => s 1 1
an assumption of a number => void *f(void *a) { __VERIFIER_assume(0); } MAIN => s 1 1
an atomic block of nothing => void *f(void *a) { __VERIFIER_atomic_begin(); __VERIFIER_atomic_end(); } MAIN => s 1 1, s 1 2, e 1 1
a creation with NULL => void *f(void *a) { } int main() { pthread_t t; pthread_create(&t, NULL, f, NULL); return 0; } => s 1 1
a join => void *f(void *a) { } int main() { pthread_t t; pthread_create(&t, 0, f, 0); pthread_join(t, 0); return 0; } => s 1 1
a handle behind a creation => void *f(void *a) { } int main() { pthread_t t; pthread_create(&t, 0, f, 0); pthread_t u; return 0; } => s 1 1
a third creation => void *f(void *a) { } int main() { pthread_t t; pthread_create(&t, 0, f, 0); pthread_create(&t, 0, f, 0); pthread_create(&t, 0, f, 0); return 0; } => s 1 1, s 2 1, s 3 1
a local named like a variable => int x; void *f(void *a) { int x; x = x + 1; } MAIN => s 1 1, s 1 2, e 1 1
a local named like its function => void *f(void *a) { int f; } MAIN => s 1 1
a local named like a function before it => void *g(void *a) { } void *f(void *a) { int g; } MAIN => s 1 1
a local named like one of a function before it => void *g(void *a) { int k; } void *f(void *a) { int k; } MAIN => s 1 1
a local of an inner block that hides one => void *f(void *a) { int k = 1; { int k = 2; } k = 3; } MAIN => s 1 1, s 1 2, s 1 3, s 1 4, e 1 1, e 1 2, e 1 3";

#[test]
fn texts_of_the_profile_have_their_tables(rt: HostRuntime) -> Result<(), Fail> {
    for case in WRITTEN.split('\n') {
        let (_what, rest) = case.split_once(" => ").ok_or("no text")?;
        let (text, lines) = rest.split_once(" => ").ok_or("no table")?;
        let (status, written) = run(rt.alloc(), "tables x.c", &spelled(rt.alloc(), text)?)?;
        assert_eq!(rt; written, bare_table(rt.alloc(), lines)?, "{case}");
        assert_eq!(rt; status, 0, "{case}");
    }
    Ok(())
}

/// What is allowed, and a program that has it.
const ACCEPTED: &str = "\
the number 2^127 - 1 => int x = 170141183460469231731687303715884105727; void *f(void *a) { x = 1; } MAIN
the number 1 - 2^127 => int x; void *f(void *a) { x = -170141183460469231731687303715884105727; } MAIN
the number 0 => int x = 0; void *f(void *a) { x = - 0; } MAIN
comments => /* one NEWLINE two */ int x; // three NEWLINE void *f(void *a) { x/**/=/* = 2; */1; } MAIN // four
a comment with any text in it => // \u{e9} \u{20ac} @ # \\ NEWLINE int x; void *f(void *a) { x = 1; /* \u{1f600} */ } MAIN
lines that include => #include <pthread.h>NEWLINE \t# \tinclude \"a.h\" /*NEWLINEint x; void *f(void *a) { x = 1; } MAIN
tabs and carriage returns => int\tx;\r void *f(void *a) { x\t= 1; } MAIN
no blank that is not needed => int x=1;int y;void*f(void*a){x=1;y=-2;}MAIN
a function that no thread runs => int x; void *g(void *b) { x = 1; } void *f(void *a) { } MAIN
a parameter named like a variable => int a; void *f(void *a) { a = 1; } MAIN
a parameter named like a local => void *f(void *a) { int a; a = 1; } MAIN
a function named like a local before it => void *g(void *a) { int f; } void *f(void *a) { } MAIN
a function that two threads run with its locals => int x; void *g(void *a) { int k; k = x; x = k + 1; } void *f(void *a) { } int main() { pthread_t t; \
pthread_create(&t, 0, g, 0); pthread_create(&t, 0, g, 0); return 0; }
one access beside locals => int x; void *f(void *a) { int k; int l; k = k + 2 * k - x - 7 + l; x = - k - 3 * l + 0; } MAIN
each comparison mark => int x; void *f(void *a) { assert(x == 1); assert(x != 1); assert(x < -1); assert(x <= 1); assert(x > 1); assert(x >= - 1); } MAIN
an assumption at the greatest number => int x; void *f(void *a) { __VERIFIER_assume(x <= 170141183460469231731687303715884105727); } MAIN
a side that needs 2^127 - 1 => int x; void *f(void *a) { if (x > 170141183460469231731687303715884105726) ; } MAIN
a sum that fits on its way => void *f(void *a) { int k; k = 170141183460469231731687303715884105727 - 1 + 1; } MAIN
a handle named like a variable => int t; void *f(void *a) { t = 1; } MAIN
a handle named like a function that no thread runs => void *t(void *a) { } void *f(void *a) { } MAIN
a name that begins with a reserved word => int assert_; void *f(void *a) { assert_ = 1; } MAIN
a name of each kind of byte => int _Z9; void *f(void *a) { _Z9 = 1; } MAIN
a sum that does not fit in a function that no thread runs => void *g(void *a) { int k; k = 170141183460469231731687303715884105727 + 1; } void *f(void *a) { } MAIN
the name const => int const; void *f(void *a) { const = 1; } MAIN";

#[test]
fn texts_that_are_accepted(rt: HostRuntime) -> Result<(), Fail> {
    for case in ACCEPTED.split('\n') {
        let (_what, text) = case.split_once(" =>").ok_or("no text")?;
        let (status, _table) = run(rt.alloc(), "tables x.c", &spelled(rt.alloc(), text)?)?;
        assert_eq!(rt; status, 0, "{case}");
    }
    Ok(())
}
