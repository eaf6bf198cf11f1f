use super::*;
use std::alloc::Global;
use std::test::*;
use thr_base::{Refusal, Stop, TEXT_LIMIT};

// The code and the place of a text's refusal, or 0 twice where it is taken.
fn answer(alloc: Global, text: &str) -> Result<String, Fail> {
    if text.len() > TEXT_LIMIT as usize {
        return Err("length")?;
    }
    match parse(alloc, text) {
        Ok(_) => Ok(String::from_str(alloc, "0 0")?),
        Err(Stop::Refused(Refusal { code, place })) => Ok(format!(in alloc; "{code} {place}")?),
        Err(Stop::Memory) => Err("memory")?,
    }
}

// Texts, each behind its answer.
const TEXTS: &str = "\
0 0|\n\
2 0|@\n\
3 8|int x = 170141183460469231731687303715884105728;\n\
4 5|int x\n\
0 0|int x = -5, y; long z; static volatile long int w;\n\
4 10|int x = - ;\n\
4 5|long long x;\n\
4 0|const int x;\n\
5 0|unsigned x;\n\
4 4|int int;\n\
0 0|int main(void) { return NULL; }\n\
4 20|int main() { return 1; }\n\
4 9|int main(int) { }\n\
4 5|void main() { }\n\
0 0|void reach_error() { int x = 3 % do; { } }\n\
0 0|void reach_error(int x[]);\n\
4 18|void reach_error( } );\n\
4 22|void reach_error() { (\n\
0 0|int assert(int); extern void abort(void);\n\
4 5|void f(void);\n\
0 0|void *f(); void *g(void *); void *h(void *x) { }\n\
4 8|void *f(int a) { }\n\
0 0|pthread_mutex_t m = PTHREAD_MUTEX_INITIALIZER, n;\n\
4 20|pthread_mutex_t m = 0;";

#[test]
fn texts(rt: HostRuntime) -> Result<(), Fail> {
    for case in TEXTS.lines() {
        let (wanted, text) = case.split_once('|').ok_or("answer")?;
        assert_eq!(rt; answer(rt.alloc(), text)?.as_str(), wanted, "in {text}");
    }
    Ok(())
}

#[test]
fn texts_of_lines(rt: HostRuntime) -> Result<(), Fail> {
    let include = "#include <a>\npthread_t t, u; // all";
    assert_eq!(rt; answer(rt.alloc(), include)?.as_str(), "0 0");
    let word = "\nvoid *f(void *a) { do ; while (0); }";
    assert_eq!(rt; answer(rt.alloc(), word)?.as_str(), "5 20");
    Ok(())
}

// What stands in `main`, each behind the answer.
const STATEMENTS: &str = "\
0 0|if (1) if (2) ; else ;\n\
4 13|else ;\n\
0 0|for (;;) ;\n\
0 0|for (int i = 0, j; i < 3; i++) { break; }\n\
0 0|for (i = 0; ; ++i) ;\n\
4 19|for (;) ;\n\
4 13|break;\n\
0 0|while (1) { if (x) break; }\n\
0 0|__VERIFIER_atomic_begin(); x = 1; __VERIFIER_atomic_end();\n\
0 0|while (1) { __VERIFIER_atomic_begin(); break; __VERIFIER_atomic_end(); }\n\
4 40|__VERIFIER_atomic_begin(); break; __VERIFIER_atomic_end();\n\
4 13|1;\n\
4 14|f();\n\
4 15|x + 1;\n\
5 14|a[1] = 2;\n\
5 19|x = y / 2;\n\
4 23|x = (1 + 2;\n\
4 18|x += __VERIFIER_nondet_int();\n\
4 41|x = __VERIFIER_nondet_int() + 1;\n\
0 0|pthread_create(&t, NULL, f, NULL); pthread_join(t, 0);\n\
4 32|pthread_create(&t, 1, f, 0);\n\
0 0|assert(x == 1 && !y || -z * 2 < 2 + (3)); reach_error();\n\
4 13|main = 1;\n\
4 23|int x = 1 int y;\n\
0 0|x++; ++x; x -= 1; return;\n\
4 32|pthread_mutex_lock(m);";

#[test]
fn statements(rt: HostRuntime) -> Result<(), Fail> {
    for case in STATEMENTS.lines() {
        let (wanted, stmts) = case.split_once('|').ok_or("answer")?;
        let text = format!(in rt.alloc(); "int main() {{ {stmts} }}")?;
        assert_eq!(rt;
            answer(rt.alloc(), text.as_str())?.as_str(),
            wanted,
            "in {text}"
        );
    }
    Ok(())
}

// A text, so many copies of a further one, and an end.
fn repeated(alloc: Global, start: &str, more: &str, count: u8, end: &str) -> Result<String, Fail> {
    let mut text = String::from_str(alloc, start)?;
    for _ in 0..count {
        text.push_str(more)?;
    }
    text.push_str(end)?;
    Ok(text)
}

// Texts of a start, so many copies of what stands behind it, and an end, each behind its answer.
const NESTINGS: &str = "\
4 76|64 int main() {~{~\n\
11 76|65 int main() {~{~\n\
11 76|65 int main() {~{~)\n\
11 76|66 int main() {~{~\n\
0 0|63 int main() { x = ~!~1; }\n\
11 80|64 int main() { x = ~!~1; }\n\
11 80|64 int main() { x = ~(~\n\
11 652|64 int main() {~while (1) ~; }\n\
4 652|64 int main() {~while (1) ~} }\n\
0 0|200 int main() { x = 1~ + 1~; }";

#[test]
fn nesting(rt: HostRuntime) -> Result<(), Fail> {
    for case in NESTINGS.lines() {
        let (wanted, rest) = case.split_once('|').ok_or("answer")?;
        let (count, rest) = rest.split_once(' ').ok_or("count")?;
        let (start, rest) = rest.split_once('~').ok_or("start")?;
        let (more, end) = rest.split_once('~').ok_or("end")?;
        let text = repeated(rt.alloc(), start, more, count.parse::<u8>()?, end)?;
        assert_eq!(rt;
            answer(rt.alloc(), text.as_str())?.as_str(),
            wanted,
            "in {text}"
        );
    }
    Ok(())
}
