use crate::predicates::{lines, table};
use crate::runs::{ASSIGNS_ONCE, run_with, spelled};
use std::alloc::Global;
use std::test::Fail;

/// Two threads count under a lock, as users write it.
const LOCKED: &str = "\
#include <assert.h>
#include <pthread.h>
int c = 0;
pthread_mutex_t m = PTHREAD_MUTEX_INITIALIZER;
void *worker(void *arg) {
  pthread_mutex_lock(&m);
  c = c + 1;
  assert(c >= 1); /* held */
  c = c - 1;
  pthread_mutex_unlock(&m);
  return NULL;
}
int main(void) {
  pthread_t t1, t2;
  pthread_create(&t1, NULL, worker, NULL);
  pthread_create(&t2, NULL, worker, NULL);
  pthread_join(t1, NULL);
  pthread_join(t2, NULL);
  return 0;
}
";

/// Who holds the lock, and what is known of the counter then.
const ITS_PREDICATES: &str = "\
s 1 1 : -c <= 0
s 1 2 : m <= 1
s 1 2 : -m <= -1
s 1 2 : -c <= 0
s 1 3 : m <= 1
s 1 3 : -m <= -1
s 1 3 : -t1.$1 <= 0
s 1 4 : m <= 1
s 1 4 : -m <= -1
s 1 4 : -c <= -1
s 1 5 : m <= 1
s 1 5 : -m <= -1
s 1 5 : -c <= -1
s 1 6 : m <= 1
s 1 6 : -m <= -1
s 1 6 : -t1.$1 <= -1
s 1 7 : m <= 1
s 1 7 : -m <= -1
e 1 1 : m <= 0
e 1 3 : m <= 1
e 1 3 : -c' <= 0
e 1 7 : m <= 1
e 1 7 : -c' <= 0
e 1 8 : m <= 1
s 2 1 : -c <= 0
s 2 2 : m <= 2
s 2 2 : -m <= -2
s 2 2 : -c <= 0
s 2 3 : m <= 2
s 2 3 : -m <= -2
s 2 3 : -t2.$1 <= 0
s 2 4 : m <= 2
s 2 4 : -m <= -2
s 2 4 : -c <= -1
s 2 5 : m <= 2
s 2 5 : -m <= -2
s 2 5 : -c <= -1
s 2 6 : m <= 2
s 2 6 : -m <= -2
s 2 6 : -t2.$1 <= -1
s 2 7 : m <= 2
s 2 7 : -m <= -2
e 2 1 : m <= 0
e 2 3 : -m <= -2
e 2 3 : -c' <= 0
e 2 7 : -m <= -2
e 2 7 : -c' <= 0
e 2 8 : -m <= -2
end
";

/// No line is at a location 0: neither the assertion nor an unlock fails.
const ITS_TABLE: &str = "\
s 1 1 : 1
s 1 2 : 1 2 3
s 1 3 : 1 2 3
s 1 4 : 1 2 3
s 1 5 : 1 2 3
s 1 6 : 1 2 3
s 1 7 : 1 2
s 1 8 :
s 1 9 :
s 2 1 : 1
s 2 2 : 1 2 3
s 2 3 : 1 2 3
s 2 4 : 1 2 3
s 2 5 : 1 2 3
s 2 6 : 1 2 3
s 2 7 : 1 2
s 2 8 :
s 2 9 :
e 1 1 : 1
e 1 2 :
e 1 3 : 1 2
e 1 4 :
e 1 6 :
e 1 7 : 1 2
e 1 8 : 1
e 1 11 :
e 2 1 : 1
e 2 2 :
e 2 3 : 1 2
e 2 4 :
e 2 6 :
e 2 7 : 1 2
e 2 8 : 1
e 2 11 :
end
";

#[test]
fn a_counter_under_a_lock_is_safe(rt: HostRuntime) -> Result<(), Fail> {
    let (status, written) = run_with(rt.alloc(), LOCKED, ITS_PREDICATES)?;
    assert_eq!(rt; written.as_str(), ITS_TABLE);
    assert_eq!(rt; status, 0);
    Ok(())
}

/// A program of two threads, its predicates, and its table: the thread's own counter, that of the other thread, a counter behind a
/// step, a local of the other thread, columns behind a step that the other thread relies on, and the same without them.
const TABLES: &str = "\
int x; void *f(void *a) { x = 1; } void *g(void *a) { x = 2; } BOTH => s 1 1 : t1.$pc <= 1, => s 1 1 : 1, s 1 2 :, s 2 1 :, s 2 2 :, e 1 1 :, e 2 1 :
int x; void *f(void *a) { x = 1; } void *g(void *a) { x = 2; } BOTH => s 1 1 : t2.$pc <= 1, s 1 2 : t2.$pc <= 1, => s 1 1 :, s 1 1 : 1, s 1 2 :, s 1 2 : 1, s 2 1 :, s 2 2 :, e 1 1 :, e 2 1 :
int x; void *f(void *a) { x = 1; } void *g(void *a) { x = 2; } BOTH => e 1 1 : t1.$pc' <= 2, e 1 1 : -t1.$pc' <= -2, => s 1 1 :, s 1 2 :, s 2 1 :, s 2 2 :, e 1 1 : 1 2, e 2 1 :
int x; void *f(void *a) { int l; l = 1; } void *g(void *a) { x = 2; } BOTH => s 2 1 : t1.l <= 1, e 1 1 : t1.l' <= 1, => s 1 1 :, s 1 2 :, s 2 1 :, s 2 1 : 1, s 2 2 :, e 1 1 : 1, e 2 1 :
int x; void *f(void *a) { x = 1; } void *g(void *a) { x = 2; } BOTH => e 1 1 : x' <= 1, e 1 1 : -x' <= -1, s 2 2 : x <= 2, s 2 2 : -x <= -1, => s 1 1 :, s 1 2 :, s 2 1 :, s 2 2 : 1 2, e 1 1 : 1 2, e 2 1 :
int x; void *f(void *a) { x = 1; } void *g(void *a) { x = 2; } BOTH => s 2 2 : x <= 2, => s 1 1 :, s 1 2 :, s 2 1 :, s 2 2 :, s 2 2 : 1, e 1 1 :, e 2 1 :";

#[test]
fn predicates_speak_of_all_columns(rt: HostRuntime) -> Result<(), Fail> {
    for case in TABLES.split('\n') {
        let (text, rest) = case.split_once(" => ").ok_or("no predicates")?;
        let (predicates, facts) = rest.split_once(" => ").ok_or("no table")?;
        let text = spelled(rt.alloc(), text)?;
        let (status, written) = run_with(rt.alloc(), &text, &lines(rt.alloc(), predicates)?)?;
        assert_eq!(rt; written, table(rt.alloc(), facts)?, "{case}");
        assert_eq!(rt; status, 0, "{case}");
    }
    Ok(())
}

/// Predicates of the program above that are refused at their first line: homes that do not exist, and a column behind a step that
/// no state has.
const BAD: &str = "\
s 3 1 : x <= 0,
s 2 3 : x <= 0,
e 2 2 : x <= 0,
e 3 1 : x <= 0,
s 2 1 : x' <= 0,
s 1 1 : t3.$pc <= 0,";

#[test]
fn homes_that_do_not_exist_are_refused(rt: HostRuntime) -> Result<(), Fail> {
    let text = "int x; void *f(void *a) { x = 1; } void *g(void *a) { x = 2; } BOTH";
    let text = spelled(rt.alloc(), text)?;
    for predicates in BAD.split('\n') {
        let (status, written) = run_with(rt.alloc(), &text, &lines(rt.alloc(), predicates)?)?;
        assert_eq!(rt; written.as_str(), "predicates line 1\n", "{predicates}");
        assert_eq!(rt; status, 3, "{predicates}");
    }
    Ok(())
}

/// So many predicates at one home, all of them true there, and the numbers of their positions behind a blank each.
fn many(alloc: Global, count: u32) -> Result<(String, String), Fail> {
    let mut predicates = String::new(alloc);
    let mut positions = String::new(alloc);
    for k in 0..count {
        let position = k + 1;
        predicates.push_str(&format!(in alloc; "s 1 2 : x <= {position}\n")?)?;
        positions.push_str(&format!(in alloc; " {position}")?)?;
    }
    predicates.push_str("end\n")?;
    Ok((predicates, positions))
}

#[test]
fn a_home_has_128_predicates(rt: HostRuntime) -> Result<(), Fail> {
    let (predicates, positions) = many(rt.alloc(), 128)?;
    let (status, written) = run_with(rt.alloc(), ASSIGNS_ONCE, &predicates)?;
    let wanted = format!(in rt.alloc(); "s 1 1 :\ns 1 2 :{positions}\ne 1 1 :\nend\n")?;
    assert_eq!(rt; written, wanted);
    assert_eq!(rt; status, 0);
    let (predicates, _positions) = many(rt.alloc(), 129)?;
    let (status, written) = run_with(rt.alloc(), ASSIGNS_ONCE, &predicates)?;
    assert_eq!(rt; written.as_str(), "predicates line 129\n");
    assert_eq!(rt; status, 3);
    Ok(())
}
