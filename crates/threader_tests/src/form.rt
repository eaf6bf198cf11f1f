use crate::runs::{run, spelled};
use std::alloc::Global;
use std::test::Fail;

const EIGHT_THREADS: &str =
    "pthread_create(&t, 0, f, 0); pthread_create(&t, 0, f, 0); pthread_create(&t, 0, f, 0); \
pthread_create(&t, 0, f, 0); pthread_create(&t, 0, f, 0); pthread_create(&t, 0, f, 0); pthread_create(&t, 0, f, 0); \
pthread_create(&t, 0, f, 0);";

/// How a rule of names or form is broken, or a limit of the graph is passed, the rule, and a text with `@` in front of the place.
const BROKEN: &str = "\
an undeclared variable => E6 => void *f(void *a) { @x = 1; } MAIN
an unknown lock => E6 => void *f(void *a) { pthread_mutex_lock(&@m); } MAIN
a function that a handle hides => E6 => void *f(void *a) { } int main() { pthread_t f; pthread_create(&f, 0, @f, 0); }
a variable twice => E7 => int x; int @x; MAIN
a handle twice => E7 => void *f(void *a) { } int main() { pthread_t t, @t; pthread_create(&t, 0, f, 0); }
a square => E8 => int x; void *f(void *a) { x = x @* x; } MAIN
a chain of comparisons => E8 => int x; void *f(void *a) { assert(0 @< x < 2); } MAIN
no text => E9 => @
no `main` => E9 => int x;@
a local of `main` => E9 => int main() { @int k; return 0; }
a creation in a thread => E9 => pthread_t t; void *f(void *a) { @pthread_create(&t, 0, f, 0); } MAIN
no thread => E10 => int x; int @main() { return 0; }
a ninth thread => E11 => void *f(void *a) { } int main() { pthread_t t; EIGHT pthread_create(&t, 0, @f, 0); }
65 columns => E11 => int x0, x1, x2, x3, x4, x5, x6, x7, x8, x9, x10, x11, x12, x13, x14, x15, x16, x17, x18, x19, x20, x21, x22, x23, x24, x25, x26, x27, x28, x29, x30, x31, x32, x33, x34, x35, x36, x37, x38, x39, x40, x41, x42, x43, x44, x45, x46, x47, x48, x49, x50, x51, x52, x53, x54, x55, x56, x57, x58, x59, x60, x61, x62, x63; void *f(void *a) { } int @main() { pthread_t t; pthread_create(&t, 0, f, 0); }
a loop in an atomic block => E12 => void *f(void *a) { __VERIFIER_atomic_begin(); @while (0) ; __VERIFIER_atomic_end(); } MAIN
a sum that does not fit => E13 => void *f(void *a) { int k; k = @170141183460469231731687303715884105727 + 1; } MAIN
a difference that does not fit => E13 => void *f(void *a) { int k; k = @-170141183460469231731687303715884105727 - 1; } MAIN
a sum that does not fit on its way => E13 => void *f(void *a) { int k; k = @170141183460469231731687303715884105727 + 1 - 1; } MAIN
a product that does not fit => E13 => void *f(void *a) { int k; k = @2 * 170141183460469231731687303715884105727; } MAIN
coefficients that do not fit => E13 => void *f(void *a) { int k; k = @170141183460469231731687303715884105727 * k + k; } MAIN
a first value of a local that does not fit => E13 => void *f(void *a) { int k = 0, l = @170141183460469231731687303715884105727 + 1; } MAIN
a side that needs 2^127 => E13 => int x; void *f(void *a) { if (@x <= 170141183460469231731687303715884105727) ; } MAIN
a side that needs -2^127 => E13 => int x; void *f(void *a) { assert(@x >= -170141183460469231731687303715884105727); } MAIN
an equality of the greatest number => E13 => int x; void *f(void *a) { assert(@x == 170141183460469231731687303715884105727); } MAIN
an assumption that needs 2^127 => E13 => int x; void *f(void *a) { __VERIFIER_assume(@x > 170141183460469231731687303715884105727); } MAIN
a second operand that needs 2^127 => E13 => int x; void *f(void *a) { if (x == 0 && !(@x <= 170141183460469231731687303715884105727)) ; } MAIN
a comparison that is cut => E13 => int x; int y; void *f(void *a) { assert(@x + 170141183460469231731687303715884105727 <= y + 170141183460469231731687303715884105727 + 1); } MAIN
a value in an atomic block that does not fit => E13 => int x; void *f(void *a) { __VERIFIER_atomic_begin(); x = 170141183460469231731687303715884105727; x = @x + x; __VERIFIER_atomic_end(); } MAIN
a comparison in an atomic block that does not fit => E13 => int x; void *f(void *a) { __VERIFIER_atomic_begin(); x = 170141183460469231731687303715884105727; assert(@x + 1 > 0); __VERIFIER_atomic_end(); } MAIN
a sum behind what no run passes => E13 => void *f(void *a) { int k; __VERIFIER_atomic_begin(); __VERIFIER_assume(0); k = @170141183460469231731687303715884105727 + 1; __VERIFIER_atomic_end(); } MAIN
the first of two sums in the text => E13 => void *f(void *a) { int k; k = @170141183460469231731687303715884105727 + 1; } void *g(void *a) { int k; k = 170141183460469231731687303715884105727 + 2; } int main() { pthread_t t; pthread_create(&t, 0, g, 0); pthread_create(&t, 0, f, 0); }
too many paths, also where no values go them => E11 => int x; void *f(void *a) { @__VERIFIER_atomic_begin(); __VERIFIER_assume(0); if (x == 0) ; if (x == 1) ; if (x == 2) ; if (x == 3) ; __VERIFIER_atomic_end(); } MAIN
too many paths in front of a sum in the block => E11 => int x; void *f(void *a) { @__VERIFIER_atomic_begin(); if (x == 0) ; if (x == 1) ; if (x == 2) ; if (x == 3) ; x = 170141183460469231731687303715884105727 + 1; __VERIFIER_atomic_end(); } MAIN
a sum in front of too many paths => E13 => int x; void *f(void *a) { x = @170141183460469231731687303715884105727 + 1; __VERIFIER_atomic_begin(); if (x == 0) ; if (x == 1) ; if (x == 2) ; if (x == 3) ; __VERIFIER_atomic_end(); } MAIN
no thread, whatever does not fit => E10 => void *f(void *a) { int k; k = 170141183460469231731687303715884105727 + 1; } int @main() { return 0; }
an unknown name in front of a square => E6 => int x; void *f(void *a) { @y = x * x; } MAIN
a square in front of an unknown name => E8 => int x; void *f(void *a) { x = x @* x + y; } MAIN";

/// The refusal by this rule at the place of the mark in a text, and the text without the mark.
fn with_place(alloc: Global, rule: &str, text: &str) -> Result<(String, String), Fail> {
    let (front, rest) = text.split_once("@").ok_or("no place")?;
    let answer = format!(in alloc; "program {rule} {}\n", front.len())?;
    let mut whole = String::from_str(alloc, front)?;
    whole.push_str(rest)?;
    Ok((answer, whole))
}

#[test]
fn names_and_form_are_asked_for(rt: HostRuntime) -> Result<(), Fail> {
    for case in BROKEN.split('\n') {
        let (_what, more) = case.split_once(" => ").ok_or("no rule")?;
        let (rule, text) = more.split_once(" => ").ok_or("no text")?;
        let created = text.replace(rt.alloc(), "EIGHT", EIGHT_THREADS)?;
        let (answer, whole) = with_place(rt.alloc(), rule, &spelled(rt.alloc(), &created)?)?;
        let (status, written) = run(rt.alloc(), "tables x.c", &whole)?;
        assert_eq!(rt; status, 3, "{case}");
        assert_eq!(rt; written, answer, "{case}");
    }
    Ok(())
}
