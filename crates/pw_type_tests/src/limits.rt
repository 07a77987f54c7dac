//! The limits of a unit: each reached, and passed by one.

use crate::answer::{Row, agree, answer};
use std::alloc::{AllocError, Global};
use std::test::Fail;

/// Texts at the limits of elements and parameters.
const SIZES: [Row; 9] = [
    // the least size
    ("long t[1];", "var t external size 1 values 0;name t l[1];"),
    // the largest size
    (
        "long t[65536];",
        "var t external size 65536 values 0;name t l[65536];",
    ),
    // one more
    ("long t[65537];", "ArraySize at line 1 token 4"),
    // as many elements in all as a unit may have
    (
        "long a[65536]; long b[65536]; long c[65536]; static long d[65536];",
        "var a external size 65536 values 0;var b external size 65536 values 0;var c external size 65536 values 0;var d internal size 65536 values 0;name a l[65536];name b l[65536];name c l[65536];",
    ),
    // an `extern` array has no elements here
    (
        "long a[65536]; long b[65536]; long c[65536]; static long d[65535]; extern long f[65536]; long e;",
        "var a external size 65536 values 0;var b external size 65536 values 0;var c external size 65536 values 0;var d internal size 65535 values 0;var e external size 0 values 0;name a l[65536];name b l[65536];name c l[65536];name e l;",
    ),
    // one element more than a unit may have
    (
        "long a[65536]; long b[65536]; long c[65536]; static long d[65536]; extern long f[65536]; long e;",
        "ArraySize at line 1 token 33",
    ),
    // as many parameters as there may be
    ("long f(long, unsigned long, fn6, long, long, long);", ""),
    // the seventh is at fault, not the eighth
    (
        "long f(long, long, long, long, long, long, long, long);",
        "TooManyParameters at line 1 token 15",
    ),
    // as many in a definition
    (
        "long f(long a, long b, long c, long d, long e, long g) { return 0; }",
        "fun f external line 1 locals 6 held 0;name f l(llllll);",
    ),
];

#[test]
fn sizes_and_parameters_have_limits(rt: HostRuntime) -> Result<(), Fail> {
    agree(&rt, rt.alloc(), &SIZES)
}

/// A part joins a text so many times.
fn push_many(text: &mut String, count: usize, part: &str) -> Result<(), AllocError> {
    for _turn in 0..count {
        text.push_str(part)?;
    }
    Ok(())
}

/// The start of a text, a part so many times, and its end.
fn with_many(
    alloc: Global,
    start: &str,
    part: &str,
    count: usize,
    end: &str,
) -> Result<String, AllocError> {
    let mut text = String::new(alloc);
    text.push_str(start)?;
    push_many(&mut text, count, part)?;
    text.push_str(end)?;
    Ok(text)
}

/// The start of a text, an expression that holds so many values, and its end.
fn with_held(alloc: Global, start: &str, held: usize, end: &str) -> Result<String, AllocError> {
    let mut text = with_many(alloc, start, "1 + (", held, "1")?;
    push_many(&mut text, held, ")")?;
    text.push_str(end)?;
    Ok(text)
}

#[test]
fn a_function_has_at_most_120_parameters_and_locals(rt: HostRuntime) -> Result<(), Fail> {
    let none = "long main(void) { ";
    let six = "long main(long a, long b, long c, long d, long e, long f) { ";
    let end = "return 0; }";
    let rows = [
        (
            none,
            120,
            end,
            "fun main external line 1 locals 120 held 0;name main l();",
        ),
        (none, 121, end, "TooManyLocals at line 1 token 608"),
        (
            six,
            114,
            end,
            "fun main external line 1 locals 120 held 0;name main l(llllll);",
        ),
        (six, 115, end, "TooManyLocals at line 1 token 594"),
        (
            none,
            120,
            "long auto; return 0; }",
            "TooManyLocals at line 1 token 607",
        ),
        (
            "long main(void) { long b; ",
            119,
            "long b; return 0; }",
            "Redeclared at line 1 token 605 of b",
        ),
    ];
    for (start, count, end, expected) in rows {
        let text = with_many(rt.alloc(), start, "{ long a; } ", count, end)?;
        let answer = answer(&rt, rt.alloc(), text.as_str())?;
        assert_eq!(rt; answer.as_str(), expected, "{count} after {start:?}");
    }
    Ok(())
}

#[test]
fn an_expression_holds_at_most_100_values(rt: HostRuntime) -> Result<(), Fail> {
    let returned = "long main(void) { return ";
    let assigned = "long t[1]; long main(void) { t[0] = ";
    let declared = "long main(void) { long x = (";
    let rows = [
        (
            returned,
            100,
            "; }",
            "fun main external line 1 locals 0 held 100;name main l();",
        ),
        (returned, 101, "; }", "TooDeep at line 1 token 411"),
        (
            assigned,
            99,
            "; }",
            "fun main external line 1 locals 0 held 100;var t external size 1 values 0;name t l[1];name main l();",
        ),
        (assigned, 100, "; }", "TooDeep at line 1 token 417"),
        (
            declared,
            100,
            "); return x; }",
            "fun main external line 1 locals 1 held 100;name main l();",
        ),
        (
            declared,
            101,
            "); return x; }",
            "TooDeep at line 1 token 414",
        ),
    ];
    for (start, held, end, expected) in rows {
        let text = with_held(rt.alloc(), start, held, end)?;
        let answer = answer(&rt, rt.alloc(), text.as_str())?;
        assert_eq!(rt; answer.as_str(), expected, "{held} after {start:?}");
    }
    Ok(())
}
