//! Which of several faults is the first.

use crate::answer::{Row, agree};
use std::test::Fail;

/// Texts in which the place of a phrase breaks several rules.
const LEAVES: [Row; 8] = [
    // void as a callee
    (
        "void v(void) { } long main(void) { v()(1); return 0; }",
        "NotValue at line 1 token 15",
    ),
    // an array as a callee
    (
        "long t[3]; long main(void) { t(1); return 0; }",
        "NotCallable at line 1 token 12",
    ),
    // an array as an argument
    (
        "long f(long a) { return a; } long t[3]; long main(void) { return f(t); }",
        "ArgType at line 1 token 26",
    ),
    // an array anywhere else
    (
        "long t[3]; long main(void) { return t; }",
        "NeedsIndex at line 1 token 13",
    ),
    // void is no value, also in a void function
    (
        "void v(void) { } void w(void) { return v(); }",
        "NotValue at line 1 token 16",
    ),
    // an argument ends before its call, which has a wrong count
    (
        "fn0 p; long f(long a, long b) { return a; } long main(void) { return f(p); }",
        "ArgType at line 1 token 26",
    ),
    // for one phrase, NotValue before ArgCount
    (
        "void v(long a) { } long main(void) { return v(); }",
        "NotValue at line 1 token 17",
    ),
    // void as the base of an index
    (
        "void v(void) { } long main(void) { return v()[1]; }",
        "NotArray at line 1 token 16",
    ),
];

/// Texts in which a name breaks a rule, and its declarator perhaps another.
const NAMES: [Row; 4] = [
    // reserved twice, and declared twice
    (
        "long register; long register;",
        "Reserved at line 1 token 1 of register",
    ),
    // reserved before the size of 0
    (
        "unsigned long auto[0];",
        "Reserved at line 1 token 2 of auto",
    ),
    // a name and its declarator are one token
    ("long auto;", "Reserved at line 1 token 1 of auto"),
    // reserved, before the element that is too many
    (
        "long a[65536]; long b[65536]; long c[65536]; long d[65536]; long auto;",
        "Reserved at line 1 token 25 of auto",
    ),
];

/// Texts in which an operator has a pointer or a function as its operand.
const OPERANDS: [Row; 6] = [
    // a function under -
    (
        "long main(void) { return - main; }",
        "Operands at line 1 token 8",
    ),
    // a pointer under -
    (
        "fn0 p; long main(void) { return -p; }",
        "Operands at line 1 token 11",
    ),
    // a pointer under +
    (
        "fn0 p; long main(void) { return +p; }",
        "Operands at line 1 token 11",
    ),
    // a pointer under ~
    (
        "fn0 p; long main(void) { return ~p; }",
        "Operands at line 1 token 11",
    ),
    // a pointer as a count
    (
        "fn0 p; long main(void) { return 1 << p; }",
        "Operands at line 1 token 12",
    ),
    // a pointer that is shifted
    (
        "fn0 p; long main(void) { return p << 1; }",
        "Operands at line 1 token 12",
    ),
];

/// Texts in which a `for` declares a local.
const LOOPS: [Row; 2] = [
    // another local of the same name
    (
        "long main(void) { long i; for (long i = 1; i < 3; i = i + 1) { __out(i); } return i; }",
        "fun main external line 1 locals 2 held 1;name main l();",
    ),
    // the local ends with the loop
    (
        "long main(void) { for (long i = 0; i < 3; i = i + 1) { } return i; }",
        "Unknown at line 1 token 26 of i",
    ),
];

/// Texts in which two rules are broken, at one token or at two.
const PAIRS: [Row; 16] = [
    // the first name is reserved, before it is defined twice
    ("long __a; long __a;", "Reserved at line 1 token 1 of __a"),
    // defined twice, before the other result
    (
        "long f(void) { return 0; } unsigned long f(void) { return 0; }",
        "Redeclared at line 1 token 12 of f",
    ),
    // another size, before a size of 0
    (
        "extern long a[3]; long a[0];",
        "Conflict at line 1 token 11 of a",
    ),
    // the first parameter, before the second
    (
        "long f(long __a, long __a) { return 0; }",
        "Reserved at line 1 token 4 of __a",
    ),
    // a name, before its parameter that is the seventh
    (
        "long f(long, long, long, long, long, long, long __a);",
        "Reserved at line 1 token 16 of __a",
    ),
    // the first element, before the second that is too many
    ("long t[1] = { f, 2 }; ", "Unknown at line 1 token 7 of f"),
    // the first element, before the second
    ("fn0 t[1] = { f, g };", "Unknown at line 1 token 7 of f"),
    // an argument, before the count
    (
        "long t[2]; long f(long a) { return a; } long main(void) { f(t, 1); return 0; }",
        "ArgType at line 1 token 25",
    ),
    // the index, before the value
    (
        "fn0 p; long t[2]; long main(void) { t[p] = p; return 0; }",
        "Operands at line 1 token 18",
    ),
    // the left operand, before the right
    (
        "void v(void) { } long main(void) { return v() + x; }",
        "NotValue at line 1 token 16",
    ),
    // void, before the operator
    (
        "fn0 p; void v(void) { } long main(void) { return p * v(); }",
        "NotValue at line 1 token 21",
    ),
    // an array without an index, before the assignment
    (
        "fn0 p; long t[2]; long main(void) { p = t; return 0; }",
        "NeedsIndex at line 1 token 17",
    ),
    // the count, before the assignment
    (
        "fn0 p; long f(long a) { return a; } long main(void) { p = f(); return 0; }",
        "ArgCount at line 1 token 24",
    ),
    // an argument, before the count
    (
        "long f(long a) { return a; } long main(void) { return f(x, 1); }",
        "Unknown at line 1 token 20 of x",
    ),
    // a second definition, before the end of the unit
    (
        "static long f(void); long a = 1; long a = 2;",
        "Redeclared at line 1 token 13 of a",
    ),
    // the value, before the assignment
    (
        "fn0 p; void main(void) { p = p + 1; }",
        "Operands at line 1 token 13",
    ),
];

#[test]
fn for_one_phrase_the_lower_rule_counts(rt: HostRuntime) -> Result<(), Fail> {
    agree(&rt, rt.alloc(), &LEAVES)
}

#[test]
fn a_name_is_judged_before_its_declarator(rt: HostRuntime) -> Result<(), Fail> {
    agree(&rt, rt.alloc(), &NAMES)
}

#[test]
fn an_operator_takes_numbers(rt: HostRuntime) -> Result<(), Fail> {
    agree(&rt, rt.alloc(), &OPERANDS)
}

#[test]
fn a_for_has_a_scope_of_its_own(rt: HostRuntime) -> Result<(), Fail> {
    agree(&rt, rt.alloc(), &LOOPS)
}

#[test]
fn of_two_faults_the_one_that_ends_first_counts(rt: HostRuntime) -> Result<(), Fail> {
    agree(&rt, rt.alloc(), &PAIRS)
}
