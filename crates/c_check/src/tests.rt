ghost use Rattle.std.specs.Prelude.{◌≤◌, length};
ghost use Rattle.thr_base.specs.Limits.{text_limit};

mod plan_lines;

use super::*;
use c_tree::parse;
use plan_lines::lines_of;
use std::alloc::Global;
use std::test::*;
use thr_base::{Stop, TEXT_LIMIT};

// Texts, each behind the code and the place of its refusal, or 0 twice where it is accepted.
const TEXTS: &str = "\
6 26 int x; void *f(void *a) { y = 1; } int main() { pthread_t t; pthread_create(&t, 0, f, 0); return 0; }\n\
6 40  void *f(void *a) { pthread_mutex_lock(&m); } int main() { pthread_t t; pthread_create(&t, 0, f, 0); return 0; }\n\
6 43 pthread_t h; int x; void *f(void *a) { x = h; } int main() { pthread_t t; pthread_create(&t, 0, f, 0); return 0; }\n\
6 48 int x; void *f(void *a) { pthread_mutex_unlock(&x); } int main() { pthread_t t; pthread_create(&t, 0, f, 0); return 0; }\n\
6 81 int x; pthread_mutex_t m; void *f(void *a) { x = 1; { int m; pthread_mutex_lock(&m); } } int main() { pthread_t t; pthread_create(&t, 0, f, 0); return 0; }\n\
6 44 int x; void *f(void *a) { x = 1; { int y; } y = 2; } int main() { pthread_t t; pthread_create(&t, 0, f, 0); return 0; }\n\
6 30 int x; void *f(void *a) { x = f; } int main() { pthread_t t; pthread_create(&t, 0, f, 0); return 0; }\n\
6 30 int x; void *f(void *a) { x = a; } int main() { pthread_t t; pthread_create(&t, 0, f, 0); return 0; }\n\
6 19 void *f(void *a) { x = 1; } int x; int main() { pthread_t t; pthread_create(&t, 0, f, 0); return 0; }\n\
6 66 void *f(void *a); int main() { pthread_t t; pthread_create(&t, 0, f, 0); }\n\
7 11 int x; int x; void *f(void *a) {  } int main() { pthread_t t; pthread_create(&t, 0, f, 0); return 0; }\n\
7 26 int x; pthread_mutex_t m, x; void *f(void *a) {  } int main() { pthread_t t; pthread_create(&t, 0, f, 0); return 0; }\n\
7 34  void *f(void *a) { int l; int k, l; } int main() { pthread_t t; pthread_create(&t, 0, f, 0); return 0; }\n\
7 13 int f; void *f(void *a) {  } int main() { pthread_t t; pthread_create(&t, 0, f, 0); return 0; }\n\
0 0 int x; void *f(void *a) { int x; { int x; } for (int x = 0; x < 1; x++) int x; } int main() { pthread_t t; pthread_create(&t, 0, f, 0); return 0; }\n\
0 0  void *f(void *a) { int f; int l = l; } int main() { pthread_t t; pthread_create(&t, 0, f, 0); return 0; }\n\
8 32 int x; void *f(void *a) { x = x * x; } int main() { pthread_t t; pthread_create(&t, 0, f, 0); return 0; }\n\
0 0 int x; void *f(void *a) { x = 2 * (3 * x); x = (2 - 1) * x; } int main() { pthread_t t; pthread_create(&t, 0, f, 0); return 0; }\n\
8 38 int x; void *f(void *a) { x = (x - x) * x; } int main() { pthread_t t; pthread_create(&t, 0, f, 0); return 0; }\n\
8 33 int x; void *f(void *a) { x = (x < 1) + 1; } int main() { pthread_t t; pthread_create(&t, 0, f, 0); return 0; }\n\
8 32 int x; void *f(void *a) { if (x < 1 < 2) ; } int main() { pthread_t t; pthread_create(&t, 0, f, 0); return 0; }\n\
8 37 int x; void *f(void *a) { if (x == 1 < 2) ; } int main() { pthread_t t; pthread_create(&t, 0, f, 0); return 0; }\n\
8 30 int x; void *f(void *a) { x = !x + 1; } int main() { pthread_t t; pthread_create(&t, 0, f, 0); return 0; }\n\
8 38 int x; void *f(void *a) { x = (x < 1) && x; } int main() { pthread_t t; pthread_create(&t, 0, f, 0); return 0; }\n\
9 13 int main() { int k; return 0; }\n\
9 21 void *f(void *a) { } \n\
9 0 \n\
9 38 pthread_mutex_t m; void *f(void *a) { pthread_mutex_init(&m, 0); } int main() { pthread_t t; pthread_create(&t, 0, f, 0); return 0; }\n\
9 20  void *f(void *a) { pthread_t h; } int main() { pthread_t t; pthread_create(&t, 0, f, 0); return 0; }\n\
9 96 void *f(void *a) { } int main() { pthread_t t; pthread_create(&t, 0, f, 0); pthread_join(t, 0); pthread_create(&t, 0, f, 0); }\n\
9 86 void *f(void *a) { } int main() { pthread_t t; pthread_create(&t, 0, f, 0); return 0; return 0; }\n\
9 94  void *f(void *a) {  } int main() { pthread_t t; pthread_create(&t, 0, f, 0); return 0; } int main() { }\n\
9 89  void *f(void *a) {  } int main() { pthread_t t; pthread_create(&t, 0, f, 0); return 0;  ; }\n\
10 4 int main() { return 0; }\n\
10 11 int x; int main() { pthread_t t; }\n\
11 301 void *f(void *a) { } int main() { pthread_t t; pthread_create(&t, 0, f, 0); pthread_create(&t, 0, f, 0); pthread_create(&t, 0, f, 0); pthread_create(&t, 0, f, 0); pthread_create(&t, 0, f, 0); pthread_create(&t, 0, f, 0); pthread_create(&t, 0, f, 0); pthread_create(&t, 0, f, 0); pthread_create(&t, 0, f, 0); }\n\
6 301 void *f(void *a) { } int main() { pthread_t t; pthread_create(&t, 0, f, 0); pthread_create(&t, 0, f, 0); pthread_create(&t, 0, f, 0); pthread_create(&t, 0, f, 0); pthread_create(&t, 0, f, 0); pthread_create(&t, 0, f, 0); pthread_create(&t, 0, f, 0); pthread_create(&t, 0, f, 0); pthread_create(&t, 0, g, 0); }\n\
0 0 void *f(void *a) { } int main() { pthread_t t; pthread_create(&t, 0, f, 0); pthread_create(&t, 0, f, 0); pthread_create(&t, 0, f, 0); pthread_create(&t, 0, f, 0); pthread_create(&t, 0, f, 0); pthread_create(&t, 0, f, 0); pthread_create(&t, 0, f, 0); pthread_create(&t, 0, f, 0); }\n\
11 341 int x0, x1, x2, x3, x4, x5, x6, x7, x8, x9, x10, x11, x12, x13, x14, x15, x16, x17, x18, x19, x20, x21, x22, x23, x24, x25, x26, x27, x28, x29, x30, x31, x32, x33, x34, x35, x36, x37, x38, x39, x40, x41, x42, x43, x44, x45, x46, x47, x48, x49, x50, x51, x52, x53, x54, x55, x56, x57, x58, x59, x60, x61, x62, x63;  void *f(void *a) {  } int main() { pthread_t t; pthread_create(&t, 0, f, 0); return 0; }\n\
0 0 int x0, x1, x2, x3, x4, x5, x6, x7, x8, x9, x10, x11, x12, x13, x14, x15, x16, x17, x18, x19, x20, x21, x22, x23, x24, x25, x26, x27, x28, x29, x30, x31, x32, x33, x34, x35, x36, x37, x38, x39, x40, x41, x42, x43, x44, x45, x46, x47, x48, x49, x50, x51, x52, x53, x54, x55, x56, x57, x58, x59, x60, x61, x62;  void *f(void *a) {  } int main() { pthread_t t; pthread_create(&t, 0, f, 0); return 0; }\n\
12 47  void *f(void *a) { __VERIFIER_atomic_begin(); while (0) ; __VERIFIER_atomic_end(); } int main() { pthread_t t; pthread_create(&t, 0, f, 0); return 0; }\n\
12 47  void *f(void *a) { __VERIFIER_atomic_begin(); for (;;) ; __VERIFIER_atomic_end(); } int main() { pthread_t t; pthread_create(&t, 0, f, 0); return 0; }\n\
12 65 pthread_mutex_t m; void *f(void *a) { __VERIFIER_atomic_begin(); pthread_mutex_lock(&m); __VERIFIER_atomic_end(); } int main() { pthread_t t; pthread_create(&t, 0, f, 0); return 0; }\n\
12 47  void *f(void *a) { __VERIFIER_atomic_begin(); return; __VERIFIER_atomic_end(); } int main() { pthread_t t; pthread_create(&t, 0, f, 0); return 0; }\n\
12 47  void *f(void *a) { __VERIFIER_atomic_begin(); pthread_exit(0); __VERIFIER_atomic_end(); } int main() { pthread_t t; pthread_create(&t, 0, f, 0); return 0; }\n\
12 47  void *f(void *a) { __VERIFIER_atomic_begin(); __VERIFIER_atomic_begin(); __VERIFIER_atomic_end(); __VERIFIER_atomic_end(); } int main() { pthread_t t; pthread_create(&t, 0, f, 0); return 0; }\n\
12 59  void *f(void *a) { while (1) { __VERIFIER_atomic_begin(); break; __VERIFIER_atomic_end(); } } int main() { pthread_t t; pthread_create(&t, 0, f, 0); return 0; }\n\
0 0 int x; void *f(void *a) { __VERIFIER_atomic_begin(); if (x < 1) x = 2; else ; { x = 3; } __VERIFIER_atomic_end(); } int main() { pthread_t t; pthread_create(&t, 0, f, 0); return 0; }\n\
4 37 int x, y; void *f(void *a) { while (x++ < y) ; } int main() { pthread_t t; pthread_create(&t, 0, f, 0); return 0; }\n\
6 49 pthread_mutex_t m; int x; void *f(void *a) { x = m; } int main() { pthread_t t; pthread_create(&t, 0, f, 0); return 0; }\n\
6 39 void *f(void *a) { pthread_mutex_lock(&f); } int main() { pthread_t t; pthread_create(&t, 0, f, 0); return 0; }\n\
6 34 int x; void *f(void *a) { for (;; y++) x = 1; } int main() { pthread_t t; pthread_create(&t, 0, f, 0); return 0; }\n\
6 49 int x; void *f(void *a) { if (x) { int y; } else y = 1; } int main() { pthread_t t; pthread_create(&t, 0, f, 0); return 0; }\n\
6 60 int x; void *f(void *a) { for (int k = 0; k < 1; k++) ; x = k; } int main() { pthread_t t; pthread_create(&t, 0, f, 0); return 0; }\n\
6 50 void *f(void *a) { } int main() { pthread_create(&t, 0, f, 0); pthread_t t; }\n\
6 69 void *f(void *a) { } int main() { pthread_t t; pthread_create(&t, 0, g, 0); }\n\
6 76 int x; void *f(void *a) { } int main() { pthread_t t; pthread_create(&t, 0, x, 0); }\n\
6 89 void *f(void *a) { } int main() { pthread_t t; pthread_create(&t, 0, f, 0); pthread_join(u, 0); }\n\
6 106 int x; void *f(void *a) { } int main() { pthread_t t; pthread_create(&t, 0, f, 0); pthread_mutex_destroy(&x); }\n\
7 19 pthread_mutex_t m, m; void *f(void *a) {  } int main() { pthread_t t; pthread_create(&t, 0, f, 0); return 0; }\n\
7 13 pthread_t t, t; void *f(void *a) { } int main() { pthread_create(&t, 0, f, 0); }\n\
7 27 void *f(void *a) { } void *f(void *a) { } int main() { pthread_t t; pthread_create(&t, 0, f, 0); }\n\
7 60 void *f(void *a) { } int main() { pthread_t t; pthread_t u, t; pthread_create(&t, 0, f, 0); }\n\
8 32 int x; void *f(void *a) { x = x < 1; } int main() { pthread_t t; pthread_create(&t, 0, f, 0); return 0; }\n\
8 32 int x; void *f(void *a) { x = x || x; } int main() { pthread_t t; pthread_create(&t, 0, f, 0); return 0; }\n\
8 34 int x; void *f(void *a) { x = -(x == 1); } int main() { pthread_t t; pthread_create(&t, 0, f, 0); return 0; }\n\
8 35 int x; void *f(void *a) { assert(x * x); } int main() { pthread_t t; pthread_create(&t, 0, f, 0); return 0; }\n\
8 31 int x; void *f(void *a) { x += !x; } int main() { pthread_t t; pthread_create(&t, 0, f, 0); return 0; }\n\
8 36 int x; void *f(void *a) { int k = 0 != x; } int main() { pthread_t t; pthread_create(&t, 0, f, 0); return 0; }\n\
9 19 void *f(void *a) { pthread_t h; pthread_join(h, 0); } int main() { pthread_t t; pthread_create(&t, 0, f, 0); return 0; }\n\
9 32 pthread_t h; void *f(void *a) { pthread_join(h, 0); } int main() { pthread_t t; pthread_create(&t, 0, f, 0); return 0; }\n\
9 32 pthread_t h; void *f(void *a) { pthread_create(&h, 0, f, 0); } int main() { pthread_t t; pthread_create(&t, 0, f, 0); return 0; }\n\
9 38 pthread_mutex_t m; void *f(void *a) { pthread_mutex_destroy(&m); } int main() { pthread_t t; pthread_create(&t, 0, f, 0); return 0; }\n\
9 102 int x; pthread_mutex_t m; void *f(void *a) { } int main() { pthread_t t; pthread_create(&t, 0, f, 0); x = 1; return 0; }\n\
9 102 int x; pthread_mutex_t m; void *f(void *a) { } int main() { pthread_t t; pthread_create(&t, 0, f, 0); if (x) ; return 0; }\n\
9 102 int x; pthread_mutex_t m; void *f(void *a) { } int main() { pthread_t t; pthread_create(&t, 0, f, 0); while (x) ; return 0; }\n\
9 102 int x; pthread_mutex_t m; void *f(void *a) { } int main() { pthread_t t; pthread_create(&t, 0, f, 0); { } return 0; }\n\
9 102 int x; pthread_mutex_t m; void *f(void *a) { } int main() { pthread_t t; pthread_create(&t, 0, f, 0); assert(x); return 0; }\n\
9 102 int x; pthread_mutex_t m; void *f(void *a) { } int main() { pthread_t t; pthread_create(&t, 0, f, 0); pthread_mutex_lock(&m); return 0; }\n\
9 102 int x; pthread_mutex_t m; void *f(void *a) { } int main() { pthread_t t; pthread_create(&t, 0, f, 0); __VERIFIER_atomic_begin(); __VERIFIER_atomic_end(); return 0; }\n\
9 96 void *f(void *a) { } int main() { pthread_t t; pthread_create(&t, 0, f, 0); pthread_join(t, 0); pthread_t u; }\n\
9 115 pthread_mutex_t m; void *f(void *a) { } int main() { pthread_t t; pthread_create(&t, 0, f, 0); pthread_join(t, 0); pthread_mutex_init(&m, 0); }\n\
9 86 void *f(void *a) { } int main() { pthread_t t; pthread_create(&t, 0, f, 0); return 0; pthread_join(t, 0); }\n\
0 0 pthread_mutex_t m; void *f(void *a) { } int main() { pthread_mutex_init(&m, 0); pthread_t t; pthread_create(&t, 0, f, 0); pthread_mutex_destroy(&m); pthread_join(t, 0); pthread_exit(0); }\n\
12 65 pthread_mutex_t m; void *f(void *a) { __VERIFIER_atomic_begin(); pthread_mutex_unlock(&m); __VERIFIER_atomic_end(); } int main() { pthread_t t; pthread_create(&t, 0, f, 0); return 0; }\n\
12 62 int x; void *f(void *a) { __VERIFIER_atomic_begin(); if (x) { while (x) ; } __VERIFIER_atomic_end(); } int main() { pthread_t t; pthread_create(&t, 0, f, 0); return 0; }\n\
12 53 int x; void *f(void *a) { __VERIFIER_atomic_begin(); return; __VERIFIER_atomic_end(); y = 1; } int main() { pthread_t t; pthread_create(&t, 0, f, 0); return 0; }\n\
6 57 int x; void *f(void *a) { } int main() { pthread_create(&x, 0, f, 0); }\n\
6 69 pthread_mutex_t m; void *f(void *a) { } int main() { pthread_create(&m, 0, f, 0); }\n\
6 50 void *f(void *a) { } int main() { pthread_create(&f, 0, f, 0); }\n\
6 96 int x; void *f(void *a) { } int main() { pthread_t t; pthread_create(&t, 0, f, 0); pthread_join(x, 0); }\n\
6 52 pthread_t h; void *f(void *a) { pthread_mutex_lock(&h); } int main() { pthread_t t; pthread_create(&t, 0, f, 0); return 0; }\n\
6 88 pthread_mutex_t m; void *f(void *a) { } int main() { pthread_t t; pthread_create(&t, 0, m, 0); }\n\
6 69 void *f(void *a) { } int main() { pthread_t t; pthread_create(&t, 0, t, 0); }\n\
6 61 int x; void *f(void *a) { } int main() { pthread_mutex_init(&x, 0); pthread_t t; pthread_create(&t, 0, f, 0); }\n\
7 35 void *f(void *a) { for (int i = 0, i; i < 1; i++) ; } int main() { pthread_t t; pthread_create(&t, 0, f, 0); return 0; }\n\
8 32 int x; void *f(void *a) { x = x <= 1; } int main() { pthread_t t; pthread_create(&t, 0, f, 0); return 0; }\n\
8 32 int x; void *f(void *a) { x = x > 1; } int main() { pthread_t t; pthread_create(&t, 0, f, 0); return 0; }\n\
8 32 int x; void *f(void *a) { x = x >= 1; } int main() { pthread_t t; pthread_create(&t, 0, f, 0); return 0; }\n\
9 76 void *f(void *a) { } int main() { pthread_t t; pthread_create(&t, 0, f, 0); for (;;) ; return 0; }\n\
10 323 int x0, x1, x2, x3, x4, x5, x6, x7, x8, x9, x10, x11, x12, x13, x14, x15, x16, x17, x18, x19, x20, x21, x22, x23, x24, x25, x26, x27, x28, x29, x30, x31, x32, x33, x34, x35, x36, x37, x38, x39, x40, x41, x42, x43, x44, x45, x46, x47, x48, x49, x50, x51, x52, x53, x54, x55, x56, x57, x58, x59, x60, x61, x62, x63, x64; int main() { return 0; }\n\
6 30 int x; void *f(void *a) { x = y * x; } int main() { pthread_t t; pthread_create(&t, 0, f, 0); return 0; }\n\
8 32 int x; void *f(void *a) { x = x * y; } int main() { pthread_t t; pthread_create(&t, 0, f, 0); return 0; }";

// A program with most of what a plan may hold.
const PROGRAM: &str = "\
int x = -5, y;\n\
pthread_mutex_t m;\n\
void *f(void *a) {\n\
int k = 2;\n\
pthread_mutex_lock(&m);\n\
x = x + y * 2;\n\
pthread_mutex_unlock(&m);\n\
while (!(x < 1 && k != y) || k) { int k; k++; break; }\n\
assert(x == k);\n\
}\n\
void *g(void *a) {\n\
for (int i = 0; i < 3; i += 2) {\n\
__VERIFIER_atomic_begin();\n\
if (__VERIFIER_nondet_int()) x = -x; else y = __VERIFIER_nondet_int();\n\
__VERIFIER_atomic_end();\n\
}\n\
__VERIFIER_assume(y);\n\
pthread_exit(0);\n\
}\n\
int z;\n\
int main() {\n\
pthread_t t;\n\
pthread_create(&t, 0, f, 0);\n\
pthread_create(&t, 0, g, 0);\n\
pthread_create(&t, 0, f, 0);\n\
}\n\
";

// Its plan, worked out by hand.
const PLAN: &str = "\
Variable x None Some(-5)\n\
Variable y None Some(0)\n\
Variable z None Some(0)\n\
Lock m None Some(0)\n\
Local t1.k Some(ThreadNo(1)) None\n\
Local t1.k#2 Some(ThreadNo(1)) None\n\
Temporary t1.$1 Some(ThreadNo(1)) None\n\
Temporary t1.$2 Some(ThreadNo(1)) None\n\
Local t2.i Some(ThreadNo(2)) None\n\
Local t3.k Some(ThreadNo(3)) None\n\
Local t3.k#2 Some(ThreadNo(3)) None\n\
Temporary t3.$1 Some(ThreadNo(3)) None\n\
Temporary t3.$2 Some(ThreadNo(3)) None\n\
Counter t1.$pc Some(ThreadNo(1)) Some(1)\n\
Counter t2.$pc Some(ThreadNo(2)) Some(1)\n\
Counter t3.$pc Some(ThreadNo(3)) Some(1)\n\
thread 0 4\n\
thread 1 8\n\
thread 0 9\n\
40 function 2 2\n\
57 Assign Own(0) 61 Number(2)\n\
64 Lock 0\n\
88 Assign Shared(0) 92 Value(Shared(0)) Value(Shared(1)) Number(2) Multiply Add\n\
103 Unlock 0\n\
129 Loop 136 (138 Less: Value(Shared(0)), Number(1)) (147 Unequal: Value(Own(0)), Value(Shared(1))) And Not (158 Unequal: Value(Own(0)), Number(0)) Or\n\
170 Assign Own(1) 170 Value(Own(1)) Number(1) Add\n\
175 Break\n\
Last\n\
EndLoop\n\
184 Assert (191 Equal: Value(Shared(0)), Value(Own(0)))\n\
208 function 1 0\n\
230 Assign Own(0) 234 Number(0)\n\
221 Loop 237 (237 Less: Value(Own(0)), Number(3))\n\
254 Atomic\n\
281 If 285 Choice\n\
310 Assign Shared(0) 314 Value(Shared(0)) Negate\n\
Else\n\
323 AssignAny Shared(1)\n\
EndIf\n\
EndAtomic\n\
Last\n\
244 Assign Own(0) 244 Value(Own(0)) Number(2) Add\n\
EndLoop\n\
379 Assume (397 Unequal: Value(Shared(1)), Number(0))\n\
401 Exit\n\
";

fn plan_of(alloc: Global, text: &str) -> Result<Plan, Stop>
    requires { length text.now ≤ text_limit }
{
    check(alloc, &parse(alloc, text)?)
}

// The code and the place of a refusal, and 0 twice where there is none.
fn refused(alloc: Global, text: &str) -> Result<(u8, u32), Fail>
    requires { length text.now ≤ text_limit }
{
    match plan_of(alloc, text) {
        Ok(_) => Ok((0, 0)),
        Err(Stop::Refused(refusal)) => Ok((refusal.code, refusal.place)),
        Err(Stop::Memory) => Err("memory")?,
    }
}

#[test]
fn refusals(rt: HostRuntime) -> Result<(), Fail> {
    for case in TEXTS.lines() {
        let (code, rest) = case.split_once(' ').ok_or("code")?;
        let (place, text) = rest.split_once(' ').ok_or("place")?;
        assert!(rt; text.len() <= TEXT_LIMIT as usize);
        let (found, at) = refused(rt.alloc(), text)?;
        assert_eq!(rt;
            format!(in rt.alloc(); "{found} {at}")?,
            format!(in rt.alloc(); "{code} {place}")?,
            "in {text}"
        );
    }
    Ok(())
}

#[test]
fn plans(rt: HostRuntime) -> Result<(), Fail> {
    assert!(rt; PROGRAM.len() <= TEXT_LIMIT as usize);
    let plan = plan_of(rt.alloc(), PROGRAM)?;
    assert_eq!(rt; lines_of(rt.alloc(), &plan)?.as_str(), PLAN);
    Ok(())
}
