//! Texts that the grammar of the profile refuses, each at its place.

use crate::runs::{run, run_bytes, spelled};
use std::alloc::{AllocError, Global};
use std::str::FromStr;
use std::test::Fail;

/// What is wrong, the answer, and a text.
const REFUSED: &str = "\
a byte alone => E2 0 => @
a type without a name => E4 5 => int x
no semicolon => E4 6 => int x void *f(void *a) { } MAIN
a word that is no type => E4 0 => const int x; MAIN
no program but an expression => E4 0 => 1 + 1;
a blank in a word => E4 23 => void *f(void *a) { ass ert(0); } MAIN
an `else` without `if` => E4 21 => void *f(void *a) { ; else ; } MAIN
a statement that is a comparison => E4 28 => int x; void *f(void *a) { x == 1; } MAIN
two signs that are one mark => E4 30 => int x; void *f(void *a) { x = --1; } MAIN
an assignment in an assignment => E4 32 => int x; void *f(void *a) { x = x = 1; } MAIN
a call of a thread function => E4 20 => void *f(void *a) { f(0); } MAIN
a `break` outside a loop => E4 19 => void *f(void *a) { break; } MAIN
a `break` in an atomic block outside a loop => E4 46 => void *f(void *a) { __VERIFIER_atomic_begin(); break; __VERIFIER_atomic_end(); } MAIN
an atomic block that does not end => E4 46 => void *f(void *a) { __VERIFIER_atomic_begin(); } MAIN
a brace too few => E4 41 => int x; void *f(void *a) { { x = 1; } int main() { return 0; }
a brace too many => E4 35 => int x; void *f(void *a) { x = 1; } } MAIN
a text that ends in a body => E4 22 => int main() { return 0;
a result other than 0 => E4 20 => int main() { return 1; }
a text that ends in an argument => E4 27 => void *f(void *a) { assert(0
a parameter that is no pointer to void => E4 8 => void *f(int a) { } MAIN
a thread function that gives an integer => E4 5 => int f(void *a) { } MAIN
a reserved function => E4 6 => void *assert(void *a) { } MAIN
a reserved parameter => E4 14 => void *f(void *main) { } MAIN
a reserved handle => E4 23 => int main() { pthread_t abort; return 0; }
a reserved variable => E4 4 => int while; MAIN
a loop that C has and the profile has not => E5 19 => void *f(void *a) { do ; while (0); } MAIN
the same on the second line => E5 20 => NEWLINEvoid *f(void *a) { do ; while (0); }NEWLINEMAINNEWLINE
an array => E5 5 => int x[2]; MAIN
a remainder => E5 32 => int x; void *f(void *a) { x = x % 2; } MAIN
a quotient => E5 32 => int x; void *f(void *a) { x = x / 2; } MAIN
a type that the profile has not => E5 0 => unsigned x; MAIN
a label => E5 25 => void *f(void *a) { again : ; } MAIN
a jump => E5 19 => void *f(void *a) { goto again; } MAIN
a string => E5 26 => void *f(void *a) { assert(\"text\"); } MAIN
another line of the preprocessor => E5 0 => #define x 1
an `#include` behind something on its line => E5 7 => int x; #include <a>
an `#include` behind a comment on its line => E5 6 => /* */ #include <a>
a word that only begins with `include` => E5 0 => #includes <a>
a variable of a condition => E5 0 => pthread_cond_t c; MAIN
a byte that begins no token => E2 7 => int x; @ MAIN
a backslash => E2 7 => int x; \\ MAIN
a letter that is not of ASCII => E2 4 => int é; MAIN
a comment that does not end => E2 7 => int x; /* MAIN
a comment that is lost => E2 7 => int x; /* lost
a comment that begins with its own end => E2 7 => int x; /*/ MAIN
a bad byte behind what the grammar refuses => E2 9 => int int; @
a needless zero => E3 30 => int x; void *f(void *a) { x = 01; } MAIN
a needless zero of a first value => E3 8 => int x = 00; void *f(void *a) { } MAIN
the number 2^127 => E3 30 => int x; void *f(void *a) { x = 170141183460469231731687303715884105728; } MAIN
the number -2^127 => E3 31 => int x; void *f(void *a) { x = -170141183460469231731687303715884105728; } MAIN
the number 2^127 as a first value => E3 8 => int x = 170141183460469231731687303715884105728;NEWLINEvoid *f(void *a) {  }NEWLINEMAINNEWLINE
two needless zeros => E3 8 => int x = 007;
a number that a letter follows => E3 8 => int x = 1u; MAIN
a number that `_` follows => E3 8 => int x = 1_; MAIN
a hexadecimal number => E3 8 => int x = 0x1; MAIN
a bad number before a bad byte => E3 8 => int x = 01; @
a bad byte before a bad number => E2 0 => @ int x = 01;";

/// The answer to a refused text, as a line.
fn refusal(alloc: Global, answer: &str) -> Result<String, AllocError> {
    let mut line = String::from_str(alloc, "program ")?;
    line.push_str(answer)?;
    line.push_str("\n")?;
    Ok(line)
}

#[test]
fn texts_that_the_grammar_refuses(rt: HostRuntime) -> Result<(), Fail> {
    for case in REFUSED.split('\n') {
        let (_what, rest) = case.split_once(" => ").ok_or("no answer")?;
        let (answer, text) = rest.split_once(" => ").ok_or("no text")?;
        let (status, written) = run(rt.alloc(), "tables x.c", &spelled(rt.alloc(), text)?)?;
        assert_eq!(rt; status, 3, "{case}");
        assert_eq!(rt; written, refusal(rt.alloc(), answer)?, "{case}");
    }
    Ok(())
}

/// A front of a text, further bytes, and the place that the answer names: a byte that begins no character, the front of
/// one, a byte behind whole characters, and bytes of a surrogate and past the last character.
const NO_TEXTS: &str = "\
int x; => 255 => 6
 => 255 => 0
// => 195 => 2
// => 195 169 => none
/* => 226 130 => 2
// \u{e9}\u{20ac} => 128 => 8
@ => 255 => 1
 => 237 160 128 => 0
// => 244 144 128 128 => 2
 => 192 128 => 0";

/// Bytes that are parted by blanks.
fn bytes(alloc: Global, front: &str, numbers: &str) -> Result<Vec<u8>, Fail> {
    let mut bytes = Vec::from_slice(alloc, front.as_bytes())?;
    for number in numbers.split(' ') {
        bytes.push(u8::from_str(number)?)?;
    }
    Ok(bytes)
}

#[test]
fn bytes_that_are_no_text(rt: HostRuntime) -> Result<(), Fail> {
    for case in NO_TEXTS.split('\n') {
        let (front, rest) = case.split_once(" => ").ok_or("no bytes")?;
        let (numbers, place) = rest.split_once(" => ").ok_or("no place")?;
        let (status, written) = run_bytes(rt.alloc(), &bytes(rt.alloc(), front, numbers)?)?;
        let answer = match place {
            "none" => String::from_str(rt.alloc(), "program E9 4\n")?,
            _ => format!(in rt.alloc(); "program E1 {place}\n")?,
        };
        assert_eq!(rt; status, 3, "{case}");
        assert_eq!(rt; written, answer, "{case}");
    }
    Ok(())
}

/// The reserved words by what refuses them as the name of a variable: the grammar there, the list of what the profile
/// has not, and, where a prototype might stand, the grammar behind them.
const NEVER_NAMES: &str = "\
E4 4 => int long void if else while for break return static volatile extern NULL PTHREAD_MUTEX_INITIALIZER pthread_t \
pthread_mutex_t
E5 4 => struct union enum typedef unsigned signed char short float double _Bool bool switch case default goto do continue \
sizeof register auto inline _Atomic pthread_cond_t pthread_cond_wait pthread_cond_signal pthread_cond_broadcast \
pthread_barrier_t sem_t pthread_mutex_trylock
E4 8 => main
E4 9 => abort
E4 10 => assert
E4 15 => reach_error
E4 16 => pthread_join pthread_exit
E4 18 => pthread_create
E4 21 => __VERIFIER_assume
E4 22 => pthread_mutex_init pthread_mutex_lock
E4 24 => pthread_mutex_unlock
E4 25 => __VERIFIER_nondet_int pthread_mutex_destroy __VERIFIER_atomic_end
E4 27 => __VERIFIER_atomic_begin";

#[test]
fn reserved_words_are_no_names(rt: HostRuntime) -> Result<(), Fail> {
    for case in NEVER_NAMES.split('\n') {
        let (answer, words) = case.split_once(" => ").ok_or("no words")?;
        for word in words.split(' ') {
            let text = format!(in rt.alloc(); "int {word}; void *f(void *a) {{ }} MAIN")?;
            let (status, written) = run(rt.alloc(), "tables x.c", &spelled(rt.alloc(), &text)?)?;
            assert_eq!(rt; status, 3, "{word}");
            assert_eq!(rt; written, refusal(rt.alloc(), answer)?, "{word}");
        }
    }
    Ok(())
}
