//! Blocks and branches, and how far their jumps go.

use crate::rows::{Row, agree};
use std::test::Fail;

/// Blocks and branches.
const BRANCHES: [Row; 14] = [
    // no code
    (";", ""),
    // no code either
    ("{ }", ""),
    // one after the other, in any depth of braces
    (
        "{ a = 1; { b = 2; } }",
        "00100513 00a13023 00200513 00a13423",
    ),
    // a local in braces has a slot of its own
    (
        "{ long i = 1; } { long j = 2; }",
        "00100513 02a13423 00200513 02a13823",
    ),
    // past the words of the branch
    (
        "if (a) b = 1;",
        "00013503 00051463 00c0006f 00100513 00a13423",
    ),
    // the first branch ends in a jump past the second
    (
        "if (a) b = 1; else b = 2;",
        "00013503 00051463 0100006f 00100513 00a13423 00c0006f 00200513 00a13423",
    ),
    // the first branch is its jump alone
    (
        "if (a) ; else b = 2;",
        "00013503 00051463 0080006f 00c0006f 00200513 00a13423",
    ),
    // a jump to the next word
    (
        "if (a) b = 1; else ;",
        "00013503 00051463 0100006f 00100513 00a13423 0040006f",
    ),
    // an `else` belongs to the last `if`
    (
        "if (a) if (b) a = 1; else a = 2;",
        "00013503 00051463 0240006f 00813503 00051463 0100006f 00100513 00a13023 00c0006f 00200513 00a13023",
    ),
    // braces give it to the first
    (
        "if (a) { if (b) a = 1; } else a = 2;",
        "00013503 00051463 01c0006f 00813503 00051463 00c0006f 00100513 00a13023 00c0006f 00200513 00a13023",
    ),
    // each jump goes behind all
    (
        "if (a) b = 1; else if (b) a = 2; else a = 3;",
        "00013503 00051463 0100006f 00100513 00a13423 0240006f 00813503 00051463 0100006f 00200513 00a13023 00c0006f 00300513 00a13023",
    ),
    // the jumps of the condition end before its test
    (
        "if (a && b) a = 1;",
        "00013503 00051463 00c0006f 00813503 00a03533 00051463 00c0006f 00100513 00a13023",
    ),
    // a pointer as a condition
    (
        "if (q0) a = 1;",
        "01813503 00051463 00c0006f 00100513 00a13023",
    ),
    // a return in a branch goes to the end of the function
    (
        "if (a) return 1; return 2;",
        "00013503 00051463 00c0006f 00100513 0100006f 00200513 0080006f",
    ),
];

#[test]
fn each_branch_has_its_instructions(rt: HostRuntime) -> Result<(), Fail> {
    agree(&rt, rt.alloc(), &BRANCHES)
}
