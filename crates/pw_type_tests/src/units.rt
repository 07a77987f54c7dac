//! What typed units have.

use crate::answer::{Row, agree};
use std::test::Fail;

/// Texts without faults, and their functions, variables and external names.
const UNITS: [Row; 11] = [
    // nothing
    ("", ""),
    // a variable
    ("long a;", "var a external size 0 values 0;name a l;"),
    // a static variable has no external name
    (
        "static long a; long b[3] = { 1, -2 };",
        "var a internal size 0 values 0;var b external size 3 values 2;name b l[3];",
    ),
    // what is only declared is left out
    (
        "extern long e; extern long g(unsigned long a, fn3 p); long main(void) { return 0; }",
        "fun main external line 1 locals 0 held 0;name main l();",
    ),
    // names that are used, by their first declaration
    (
        "extern long e; long f(long a); fn1 p = f; static long g(void) { return e; }\nlong f(long a) { long b = a + (1 + 2); g(); return b; }",
        "fun g internal line 1 locals 0 held 0;fun f external line 2 locals 2 held 2;var p external size 0 values 1;name e l;name f l(l);name p 1;",
    ),
    // an array and a function that are defined elsewhere
    (
        "extern fn2 p[16]; void q(void); long main(long a, fn2 b) { p[a] = b; q(); return a; }",
        "fun main external line 1 locals 2 held 1;name p 2[16];name q v();name main l(l2);",
    ),
    // one static, one external
    (
        "static long a; long b;",
        "var a internal size 0 values 0;var b external size 0 values 0;name b l;",
    ),
    // static functions need no name
    (
        "static long f(long x) { return x; } fn1 t[2] = { f, f }; long main(void) { return t[0](1); }",
        "fun f internal line 1 locals 1 held 0;fun main external line 1 locals 0 held 1;var t external size 2 values 2;name t 1[2];name main l();",
    ),
    // locals are numbered through all blocks
    (
        "long f(void); long f(void); long f(void) { { long a; } { long a; long b; } return 0; }",
        "fun f external line 1 locals 3 held 0;name f l();",
    ),
    // names by first declaration, variables by definition
    (
        "extern long f; long gg; long f; extern long gg; long main(void) { return f + gg; }",
        "fun main external line 1 locals 0 held 1;var gg external size 0 values 0;var f external size 0 values 0;name f l;name gg l;name main l();",
    ),
    // declared twice, defined once
    (
        "extern long a; extern long a; long a = 5;",
        "var a external size 0 values 1;name a l;",
    ),
];

#[test]
fn a_unit_has_what_it_defines_and_the_external_names_that_it_uses(
    rt: HostRuntime,
) -> Result<(), Fail> {
    agree(&rt, rt.alloc(), &UNITS)
}
