//! The edges of each kind of statement and condition, as tables without predicates tell them.

use crate::runs::{bare_table, run, spelled};
use std::alloc::Global;
use std::test::Fail;

/// What the thread does, the program, and the lines of its table.
const SHAPES: &str = "\
a loop with `for` => int x; void *f(void *a) { for (x = 0; ?; x = 1) x = 2; } MAIN => s 1 1, s 1 2, s 1 3, s 1 4, s 1 5, e 1 1, e 1 2, e 1 3, e 1 4, e 1 5
a `for` without its first part => int x; void *f(void *a) { for (; x < 1; x = 2) x = 3; } MAIN => s 1 1, s 1 2, s 1 3, s 1 4, e 1 1, e 1 2, e 1 3, e 1 4
a `for` without its condition => int x; void *f(void *a) { for (x = 0; ; x = 1) x = 2; } MAIN => s 1 1, s 1 2, s 1 3, s 1 4, e 1 1, e 1 2, e 1 3, e 1 4
a `for` without its last part => int x; void *f(void *a) { for (x = 0; ?;) x = 1; } MAIN => s 1 1, s 1 2, s 1 3, s 1 4, e 1 1, e 1 2, e 1 3, e 1 4
a `for` with nothing but a body => int x; void *f(void *a) { for (;;) x = 1; } MAIN => s 1 1, s 1 2, e 1 1, e 1 2
a `for` with a local => void *f(void *a) { for (int i = 0; i < 3; i++) ; } MAIN => s 1 1, s 1 2, s 1 3, s 1 4, e 1 1, e 1 2, e 1 3, e 1 4
a `break` => int x; void *f(void *a) { while (?) break; x = 1; } MAIN => s 1 1, s 1 2, s 1 3, s 1 4, e 1 1, e 1 2, e 1 3, e 1 4
a `break` of an inner loop => int x; void *f(void *a) { while (?) { while (?) { if (?) break; x = 1; } x = 2; } } MAIN => s 1 1, s 1 2, s 1 3, s 1 4, s 1 5, s 1 6, s 1 7, e 1 1, e 1 2, e 1 3, e 1 4, e 1 5, e 1 6, e 1 7, e 1 8, e 1 9
a `break` that a `for` does not go on behind => int x; void *f(void *a) { for (; ; x = 1) break; x = 2; } MAIN => s 1 1, s 1 2, s 1 4, s 1 5, e 1 1, e 1 2, e 1 4
a `return` in a loop => int x; void *f(void *a) { while (?) { if (?) return NULL; x = 1; } x = 2; } MAIN => s 1 1, s 1 2, s 1 3, s 1 4, s 1 5, s 1 6, e 1 1, e 1 2, e 1 3, e 1 4, e 1 5, e 1 6, e 1 7
both operands of `&&` => int x; int y; void *f(void *a) { if (x == 0 && y < 1) x = 1; else x = 2; } MAIN => s 1 1, s 1 2, s 1 3, s 1 4, s 1 5, e 1 1, e 1 2, e 1 3, e 1 4, e 1 5, e 1 6, e 1 7
both operands of `||` => int x; int y; void *f(void *a) { if (x < 0 || y > 1) x = 1; else x = 2; } MAIN => s 1 1, s 1 2, s 1 3, s 1 4, s 1 5, e 1 1, e 1 2, e 1 3, e 1 4, e 1 5, e 1 6
a denied `&&` => int x; int y; void *f(void *a) { while (!(x != 0 && y >= 1)) x = 1; } MAIN => s 1 1, s 1 2, s 1 3, s 1 4, e 1 1, e 1 2, e 1 3, e 1 4, e 1 5, e 1 6
an assertion of `||` => int x; void *f(void *a) { assert(x == 0 || x == 1); } MAIN => s 1 0, s 1 1, s 1 2, s 1 3, e 1 1, e 1 2, e 1 3, e 1 4, e 1 5, e 1 6
an assumption of `||` => int x; void *f(void *a) { __VERIFIER_assume(x < 0 || x > 1); assert(x != 0); } MAIN => s 1 0, s 1 1, s 1 2, s 1 3, s 1 4, e 1 1, e 1 2, e 1 3, e 1 4, e 1 5, e 1 6
three levels of operands => int x; int y; void *f(void *a) { if ((x < 0 || (y < 0 && !(x > 1))) && y != 2) x = 3; else x = 4; } MAIN => s 1 1, s 1 2, s 1 3, s 1 4, s 1 5, s 1 6, s 1 7, e 1 1, e 1 2, e 1 3, e 1 4, e 1 5, e 1 6, e 1 7, e 1 8, e 1 9, e 1 10, e 1 11
`==` as a condition of each kind => int x; void *f(void *a) { if (x == 0) ; while (x == 1) ; __VERIFIER_assume(x == 2); assert(x == 3); } MAIN => s 1 0, s 1 1, s 1 2, s 1 3, s 1 4, s 1 5, e 1 1, e 1 2, e 1 3, e 1 4, e 1 5, e 1 6, e 1 7, e 1 8, e 1 9, e 1 10
`!=` as a condition of each kind => int x; void *f(void *a) { if (x != 0) ; while (x != 1) ; __VERIFIER_assume(x != 2); assert(x != 3); } MAIN => s 1 0, s 1 1, s 1 2, s 1 3, s 1 4, s 1 5, e 1 1, e 1 2, e 1 3, e 1 4, e 1 5, e 1 6, e 1 7, e 1 8, e 1 9, e 1 10, e 1 11
the other marks => int x; void *f(void *a) { if (x < 0) ; if (x <= 0) ; if (x > 0) ; if (x >= 0) ; } MAIN => s 1 1, s 1 2, s 1 3, s 1 4, s 1 5, e 1 1, e 1 2, e 1 3, e 1 4, e 1 5, e 1 6, e 1 7, e 1 8
sides that constants leave out => int x; void *f(void *a) { if (1 < 2) x = 1; else x = 2; assert(3 >= 3); __VERIFIER_assume(0 != 0); x = 3; } MAIN => s 1 1, s 1 2, s 1 4, s 1 5, e 1 1, e 1 2, e 1 4
a constant `==` that is false => int x; void *f(void *a) { if (1 == 2) x = 1; x = 2; } MAIN => s 1 1, s 1 3, s 1 4, e 1 1, e 1 3
a lock and its unlock => pthread_mutex_t m; void *f(void *a) { pthread_mutex_lock(&m); pthread_mutex_unlock(&m); } MAIN => s 1 0, s 1 1, s 1 2, s 1 3, e 1 1, e 1 2, e 1 3, e 1 4
an unlock behind a branch => int x; pthread_mutex_t m; void *f(void *a) { if (?) pthread_mutex_lock(&m); x = 1; pthread_mutex_unlock(&m); } MAIN => s 1 0, s 1 1, s 1 2, s 1 3, s 1 4, s 1 5, e 1 1, e 1 2, e 1 3, e 1 4, e 1 5, e 1 6, e 1 7
an atomic block with a branch => int x; void *f(void *a) { __VERIFIER_atomic_begin(); if (x == 0) x = 1; else x = x + 2; __VERIFIER_atomic_end(); } MAIN => s 1 1, s 1 2, e 1 1, e 1 2, e 1 3
an atomic block with an assertion in a branch and an assumption behind => int x; void *f(void *a) { __VERIFIER_atomic_begin(); if (?) { assert(x > 0); x = 1; } __VERIFIER_assume(x != 5); __VERIFIER_atomic_end(); x = 2; } MAIN => s 1 0, s 1 1, s 1 2, s 1 3, e 1 1, e 1 2, e 1 3, e 1 4, e 1 5
an atomic block of which all paths fail => int x; void *f(void *a) { __VERIFIER_atomic_begin(); x = 1; assert(0); __VERIFIER_atomic_end(); x = 2; } MAIN => s 1 0, s 1 1, e 1 1
an atomic block of which no path goes => int x; void *f(void *a) { __VERIFIER_atomic_begin(); x = 1; __VERIFIER_assume(x == 2); __VERIFIER_atomic_end(); x = 2; } MAIN => s 1 1
an atomic block of constant paths => int x; void *f(void *a) { __VERIFIER_atomic_begin(); if (1 == 1) x = 1; if (2 < 1) x = 2; __VERIFIER_atomic_end(); } MAIN => s 1 1, s 1 2, e 1 1
an atomic block that reads what it set => int x; void *f(void *a) { __VERIFIER_atomic_begin(); x = 1; x = x + 1; assert(x == 2); __VERIFIER_atomic_end(); } MAIN => s 1 1, s 1 2, e 1 1
an atomic block with two inputs => int x; int y; void *f(void *a) { __VERIFIER_atomic_begin(); x = ?; y = ?; __VERIFIER_assume(x < y); __VERIFIER_atomic_end(); assert(x < y); } MAIN => s 1 0, s 1 1, s 1 2, s 1 3, s 1 4, s 1 5, e 1 1, e 1 2, e 1 3, e 1 4, e 1 5
a path that no values go => int x; void *f(void *a) { __VERIFIER_atomic_begin(); __VERIFIER_assume(x < 0); __VERIFIER_assume(x > 0); __VERIFIER_atomic_end(); x = 1; } MAIN => s 1 1
a local that is one half => void *f(void *a) { int k; __VERIFIER_atomic_begin(); __VERIFIER_assume(2 * k == 1); assert(0); __VERIFIER_atomic_end(); } MAIN => s 1 0, s 1 1, e 1 1";

/// What the two threads do, the program, and the lines of its table.
const TOGETHER: &str = "\
two threads that add in two steps => int x; void *f(void *a) { x = x + 1; } void *g(void *a) { x = x + 1; } BOTH => s 1 1, s 1 2, s 1 3, s 2 1, s 2 2, s 2 3, e 1 1, e 1 2, e 2 1, e 2 2
two threads that add in one step => int x; void *f(void *a) { __VERIFIER_atomic_begin(); x = x + 1; __VERIFIER_atomic_end(); } void *g(void *a) { __VERIFIER_atomic_begin(); x = x + 1; __VERIFIER_atomic_end(); } BOTH => s 1 1, s 1 2, s 2 1, s 2 2, e 1 1, e 2 1
two threads at one lock => pthread_mutex_t m; void *f(void *a) { pthread_mutex_lock(&m); pthread_mutex_unlock(&m); } void *g(void *a) { pthread_mutex_lock(&m); } BOTH => s 1 0, s 1 1, s 1 2, s 1 3, s 2 1, s 2 2, e 1 1, e 1 2, e 1 3, e 1 4, e 2 1
a thread that spins for another => int x; void *f(void *a) { while (x == 0) ; assert(x == 1); } void *g(void *a) { x = 1; } BOTH => s 1 0, s 1 1, s 1 2, s 1 3, s 2 1, s 2 2, e 1 1, e 1 2, e 1 3, e 1 4, e 1 5, e 1 6, e 2 1";

/// Whether each case has its table; else the first that has not.
fn first_other(alloc: Global, cases: &str) -> Result<String, Fail> {
    for case in cases.split('\n') {
        let (what, rest) = case.split_once(" => ").ok_or("no text")?;
        let (text, lines) = rest.split_once(" => ").ok_or("no table")?;
        let (_status, written) = run(alloc, "tables x.c", &spelled(alloc, text)?)?;
        if written != bare_table(alloc, lines)? {
            return Ok(format!(in alloc; "{what}: {written}")?);
        }
    }
    Ok(String::new(alloc))
}

#[test]
fn statements_have_their_edges(rt: HostRuntime) -> Result<(), Fail> {
    assert_eq!(rt; first_other(rt.alloc(), SHAPES)?.as_str(), "");
    Ok(())
}

#[test]
fn two_threads_have_their_edges(rt: HostRuntime) -> Result<(), Fail> {
    assert_eq!(rt; first_other(rt.alloc(), TOGETHER)?.as_str(), "");
    Ok(())
}

/// A counter under a lock, as people write it.
const LOCKED_COUNTER: &str = "\
#include <assert.h>
#include <pthread.h>
int c = 0;
pthread_mutex_t m = PTHREAD_MUTEX_INITIALIZER;
void *worker(void *arg) {
  pthread_mutex_lock(&m);
  c = c + 1;
  assert(c >= 1); /* held */
  c = c - 1;
  pthread_mutex_unlock(&m);
  return NULL;
}
int main(void) {
  pthread_t t1, t2;
  pthread_create(&t1, NULL, worker, NULL);
  pthread_create(&t2, NULL, worker, NULL);
  pthread_join(t1, NULL);
  pthread_join(t2, NULL);
  return 0;
}
";

/// Without predicates all its locations are reached, those of failing too.
const ITS_LINES: &str = "\
s 1 0, s 1 1, s 1 2, s 1 3, s 1 4, s 1 5, s 1 6, s 1 7, s 1 8, s 1 9, \
s 2 0, s 2 1, s 2 2, s 2 3, s 2 4, s 2 5, s 2 6, s 2 7, s 2 8, s 2 9, \
e 1 1, e 1 2, e 1 3, e 1 4, e 1 5, e 1 6, e 1 7, e 1 8, e 1 9, e 1 10, e 1 11, \
e 2 1, e 2 2, e 2 3, e 2 4, e 2 5, e 2 6, e 2 7, e 2 8, e 2 9, e 2 10, e 2 11";

#[test]
fn a_locked_counter_has_eleven_edges(rt: HostRuntime) -> Result<(), Fail> {
    let (status, written) = run(rt.alloc(), "tables x.c", LOCKED_COUNTER)?;
    assert_eq!(rt; written, bare_table(rt.alloc(), ITS_LINES)?);
    assert_eq!(rt; status, 0);
    Ok(())
}
