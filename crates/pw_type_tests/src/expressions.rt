//! Faults of expressions.

use crate::answer::{Row, agree};
use std::test::Fail;

/// Values and operands of other types than are wanted.
const OPERANDS: [Row; 8] = [
    // void is no operand
    (
        "void v(void) { } long main(void) { return v() + 1; }",
        "NotValue at line 1 token 16",
    ),
    // void is no value of a local
    (
        "void v(void) { } long main(void) { long a = v(); return a; }",
        "NotValue at line 1 token 18",
    ),
    // no pointer type fits a parameter that is unsigned
    (
        "long g(unsigned long a) { return a; } long main(void) { return g; }",
        "NotValue at line 1 token 19",
    ),
    // a pointer is no operand of +
    (
        "fn1 p; long main(void) { return p + 1; }",
        "Operands at line 1 token 12",
    ),
    // pointers of two types are not compared
    (
        "fn0 p; fn1 q; long main(void) { return p == q; }",
        "Operands at line 1 token 15",
    ),
    // a choice of a pointer and a number
    (
        "fn0 p; long main(void) { return 1 ? p : 2; }",
        "Operands at line 1 token 14",
    ),
    // a pointer is no index
    (
        "long t[2]; fn0 p; long main(void) { return t[p]; }",
        "Operands at line 1 token 19",
    ),
    // a pointer as the index of a target
    (
        "long t[2]; fn0 p; long main(void) { t[p] = 1; return 0; }",
        "Operands at line 1 token 18",
    ),
];

/// Calls of what is no function, or with other arguments.
const CALLS: [Row; 6] = [
    // an argument too few
    (
        "long f(long a) { return a; }\nlong main(void) { return f(); }",
        "ArgCount at line 2 token 20",
    ),
    // an argument too many
    (
        "long f(void) { return 0; } long main(void) { return f(1); }",
        "ArgCount at line 1 token 20",
    ),
    // a pointer is not written
    (
        "fn0 p; long main(void) { __out(p); return 0; }",
        "ArgType at line 1 token 11",
    ),
    // a pointer does not convert to a number
    (
        "fn0 p; long f(long a) { return a; } long main(void) { return f(p); }",
        "ArgType at line 1 token 23",
    ),
    // a variable is not called
    (
        "long a; long main(void) { return a(1); }",
        "NotCallable at line 1 token 10",
    ),
    // a number is not called
    (
        "long main(void) { return 1(2); }",
        "NotCallable at line 1 token 7",
    ),
];

/// Arrays without an index, an index without an array, and assignments to what does not fit.
const ARRAYS: [Row; 8] = [
    // a variable that is no array
    (
        "long a; long main(void) { return a[1]; }",
        "NotArray at line 1 token 10",
    ),
    // the same as a target
    (
        "long a; long main(void) { a[1] = 2; return 0; }",
        "NotArray at line 1 token 9",
    ),
    // a local, which is never an array
    (
        "long main(void) { long a; return a[1]; }",
        "NotArray at line 1 token 10",
    ),
    // an array is no value
    (
        "long t[3]; long main(void) { return t; }",
        "NeedsIndex at line 1 token 13",
    ),
    // an array as a target without an index
    (
        "long t[3]; long main(void) { t = 1; return 0; }",
        "NeedsIndex at line 1 token 12",
    ),
    // a pointer for a local number
    (
        "fn0 p; long main(void) { long a; a = p; return 0; }",
        "AssignType at line 1 token 14",
    ),
    // a function as a target
    (
        "long f(void) { return 0; } long main(void) { f = 1; return 0; }",
        "AssignType at line 1 token 16",
    ),
    // a number for a pointer
    (
        "fn0 p; long main(void) { p = 1; return 0; }",
        "AssignType at line 1 token 11",
    ),
];

#[test]
fn operators_take_numbers_or_two_equal_pointers(rt: HostRuntime) -> Result<(), Fail> {
    agree(&rt, rt.alloc(), &OPERANDS)
}

#[test]
fn a_call_has_the_arguments_that_its_callee_takes(rt: HostRuntime) -> Result<(), Fail> {
    agree(&rt, rt.alloc(), &CALLS)
}

#[test]
fn an_array_stands_with_an_index(rt: HostRuntime) -> Result<(), Fail> {
    agree(&rt, rt.alloc(), &ARRAYS)
}
