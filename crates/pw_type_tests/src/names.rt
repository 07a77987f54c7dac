//! Faults of names.

use crate::answer::{Row, agree};
use std::test::Fail;

/// Names that are not visible, and static functions that are not defined.
const UNKNOWN: [Row; 7] = [
    // no declaration
    (
        "long main(void) { return x; }",
        "Unknown at line 1 token 7 of x",
    ),
    // as a target
    (
        "long main(void) {\n  x = 1;\n  return 0;\n}",
        "Unknown at line 2 token 6 of x",
    ),
    // as an array
    (
        "long main(void) { x[0] = 1; return 0; }",
        "Unknown at line 1 token 6 of x",
    ),
    // a static function without a definition: the unit is at fault
    (
        "static long f(void);\nlong main(void) { return f(); }\n",
        "Unknown at line 2 token 18 of f",
    ),
    // of two, the first one
    (
        "static long f(void); static long g(void);",
        "Unknown at line 1 token 13 of f",
    ),
    // declared only afterwards
    (
        "fn0 p = f; long f(void) { return 0; }",
        "Unknown at line 1 token 3 of f",
    ),
    // the elements are judged in order
    ("fn0 p[2] = { f, 0 };", "Unknown at line 1 token 7 of f"),
];

/// Names that are defined twice.
const REDECLARED: [Row; 5] = [
    // a variable twice
    ("long a; long a;", "Redeclared at line 1 token 4 of a"),
    // a function twice
    (
        "long f(void) { return 1; } long f(void) { return 2; }",
        "Redeclared at line 1 token 11 of f",
    ),
    // two parameters
    (
        "long f(long a, long a) { return a; }",
        "Redeclared at line 1 token 7 of a",
    ),
    // two locals of one block
    (
        "long main(void) { long a; long a; return 0; }",
        "Redeclared at line 1 token 10 of a",
    ),
    // a local of the outermost block, where the parameters belong
    (
        "long main(long a) { long a; return 0; }",
        "Redeclared at line 1 token 8 of a",
    ),
];

/// Names that are declared otherwise before.
const CONFLICTS: [Row; 7] = [
    // another result
    (
        "long f(long a); unsigned long f(long a) { return a; }",
        "Conflict at line 1 token 13 of f",
    ),
    // another parameter
    (
        "long f(long a); long f(unsigned long a) { return 1; }",
        "Conflict at line 1 token 13 of f",
    ),
    // fewer parameters
    (
        "long f(long a); long f(void) { return 1; }",
        "Conflict at line 1 token 11 of f",
    ),
    // another linkage
    (
        "static long f(void); long f(void) { return 1; }",
        "Conflict at line 1 token 11 of f",
    ),
    // another size
    (
        "extern long a[3]; long a[4];",
        "Conflict at line 1 token 11 of a",
    ),
    // no array, and an array
    (
        "extern long a; long a[1];",
        "Conflict at line 1 token 8 of a",
    ),
    // a variable, and a function
    ("long a; long a(void);", "Conflict at line 1 token 7 of a"),
];

/// Names that no declaration may have.
const RESERVED: [Row; 4] = [
    // two low lines begin it
    ("long __a;", "Reserved at line 1 token 1 of __a"),
    // the entry's name
    (
        "long _start(void) { return 0; }",
        "Reserved at line 1 token 1 of _start",
    ),
    // a keyword of C, as a parameter of a prototype
    (
        "long f(long register);",
        "Reserved at line 1 token 4 of register",
    ),
    // a keyword of C, as a local
    (
        "long main(void) { long sizeof; return 0; }",
        "Reserved at line 1 token 7 of sizeof",
    ),
];

#[test]
fn a_name_is_declared_before_it_is_used(rt: HostRuntime) -> Result<(), Fail> {
    agree(&rt, rt.alloc(), &UNKNOWN)
}

#[test]
fn a_name_is_defined_once(rt: HostRuntime) -> Result<(), Fail> {
    agree(&rt, rt.alloc(), &REDECLARED)
}

#[test]
fn the_declarations_of_a_name_agree(rt: HostRuntime) -> Result<(), Fail> {
    agree(&rt, rt.alloc(), &CONFLICTS)
}

#[test]
fn some_names_are_reserved(rt: HostRuntime) -> Result<(), Fail> {
    agree(&rt, rt.alloc(), &RESERVED)
}
