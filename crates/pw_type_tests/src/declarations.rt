//! Faults of declarations.

use crate::answer::{Row, agree};
use std::test::Fail;

/// Values that do not fit a variable.
const INITIALISERS: [Row; 5] = [
    // a number for a pointer
    ("fn1 p = 3;", "Initialiser at line 1 token 3"),
    // a function for a number
    (
        "long f(void) { return 0; } long a = f;",
        "Initialiser at line 1 token 13",
    ),
    // a function of another type than the pointer's
    (
        "long f(void) { return 0; } fn1 p = f;",
        "Initialiser at line 1 token 13",
    ),
    // a variable for a pointer
    ("long a; fn0 p = a;", "Initialiser at line 1 token 6"),
    // an element too many
    ("long t[2] = { 1, 2, 3 };", "Initialiser at line 1 token 11"),
];

/// Arrays of no elements or too many, and functions of too many parameters.
const SIZES: [Row; 6] = [
    // no element
    ("long t[0];", "ArraySize at line 1 token 4"),
    // one more than the limit
    ("long t[65537];", "ArraySize at line 1 token 4"),
    // the limit holds for a declaration too
    ("extern long t[65537];", "ArraySize at line 1 token 5"),
    // as many as a constant says
    (
        "extern long t[9223372036854775807];",
        "ArraySize at line 1 token 5",
    ),
    // a seventh parameter of a prototype
    (
        "long f(long, long, long, long, long, long, long);",
        "TooManyParameters at line 1 token 15",
    ),
    // a seventh parameter of a definition
    (
        "long f(long a, long b, long c, long d, long e, long g, long h) { return 0; }",
        "TooManyParameters at line 1 token 22",
    ),
];

#[test]
fn a_variable_begins_with_what_fits(rt: HostRuntime) -> Result<(), Fail> {
    agree(&rt, rt.alloc(), &INITIALISERS)
}

#[test]
fn sizes_are_limited(rt: HostRuntime) -> Result<(), Fail> {
    agree(&rt, rt.alloc(), &SIZES)
}
