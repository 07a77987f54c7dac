//! Loops, and where `break`, `continue` and `return` go.

use crate::rows::{Row, agree};
use std::test::Fail;

/// Loops.
const LOOPS: [Row; 22] = [
    // back to the condition
    (
        "while (a) a = a - 1;",
        "00013503 00051463 0200006f 00013503 02a13423 00100513 02813283 40a28533 00a13023 fddff06f",
    ),
    // no word in the body
    ("while (a) ;", "00013503 00051463 0080006f ff5ff06f"),
    // behind the jump back
    (
        "while (1) break;",
        "00100513 00051463 00c0006f 0080006f ff1ff06f",
    ),
    // to the jump back
    (
        "while (a) { if (b) continue; a = 0; }",
        "00013503 00051463 0200006f 00813503 00051463 0080006f 00c0006f 00000513 00a13023 fddff06f",
    ),
    // each `break` leaves its own loop
    (
        "while (a) { while (b) break; break; }",
        "00013503 00051463 0200006f 00813503 00051463 00c0006f 0080006f ff1ff06f 0080006f fddff06f",
    ),
    // each `continue` goes on with its own loop
    (
        "while (a) { while (b) continue; continue; }",
        "00013503 00051463 0200006f 00813503 00051463 00c0006f 0040006f ff1ff06f 0040006f fddff06f",
    ),
    // back to the body
    (
        "do a = a - 1; while (a);",
        "00013503 02a13423 00100513 02813283 40a28533 00a13023 00013503 00050463 fe1ff06f",
    ),
    // the condition is the first word
    ("do ; while (a);", "00013503 00050463 ff9ff06f"),
    // behind the jump back
    (
        "do { if (b) break; a = 0; } while (a);",
        "00813503 00051463 0080006f 0180006f 00000513 00a13023 00013503 00050463 fe1ff06f",
    ),
    // to the condition, behind the body
    (
        "do { if (b) continue; a = 0; } while (a);",
        "00813503 00051463 0080006f 00c0006f 00000513 00a13023 00013503 00050463 fe1ff06f",
    ),
    // a loop whose body is a loop
    (
        "do do break; while (a); while (b);",
        "0100006f 00013503 00050463 ff5ff06f 00813503 00050463 fe9ff06f",
    ),
    // a jump to itself
    ("for (;;) ;", "0000006f"),
    // behind that jump
    ("for (;;) break;", "0080006f ffdff06f"),
    // the last part stands behind the body
    (
        "for (a = 0; a < 3; a = a + 1) x = a;",
        "00000513 00a13023 00013503 02a13423 00300513 02813283 00a2a533 00051463 0300006f 00013503 5=x 00a2b023 00013503 02a13423 00100513 02813283 00a28533 00a13023 fbdff06f",
    ),
    // a condition alone
    (
        "for (; a;) a = 0;",
        "00013503 00051463 0100006f 00000513 00a13023 fedff06f",
    ),
    // a first part alone stands outside the loop
    (
        "for (a = 1;;) if (a) break;",
        "00100513 00a13023 00013503 00051463 0080006f 0080006f ff1ff06f",
    ),
    // `continue` goes to the last part, and `break` behind the jump back
    (
        "for (;; a = 1) if (b) continue; else break;",
        "00813503 00051463 00c0006f 00c0006f 0080006f 0100006f 00100513 00a13023 fe1ff06f",
    ),
    // a local of the first part
    (
        "for (long i = 0; i < 2; i = i + 1) if (i) continue;",
        "00000513 02a13423 02813503 02a13823 00200513 03013283 00a2a533 00051463 0300006f 02813503 00051463 0080006f 0040006f 02813503 02a13823 00100513 03013283 00a28533 02a13423 fbdff06f",
    ),
    // `break` of the inner one goes to the last part of the outer one
    (
        "for (a = 0;; a = 1) for (b = 0;;) break;",
        "00000513 00a13023 00000513 00a13423 0080006f ffdff06f 00100513 00a13023 fe9ff06f",
    ),
    // `continue` of a `for` in a `while`
    (
        "while (a) for (;;) { if (b) continue; break; }",
        "00013503 00051463 0200006f 00813503 00051463 0080006f 0080006f 0080006f fedff06f fddff06f",
    ),
    // `continue` of a `do` in a `while`
    (
        "while (a) do continue; while (b);",
        "00013503 00051463 0180006f 0040006f 00813503 00050463 ff5ff06f fe5ff06f",
    ),
    // an element is set in a last part
    (
        "for (;; arr[a] = b) a = 1;",
        "00100513 00a13023 00013503 00a00313 00656a63 00100513 00300593 40200893 00000073 02a13423 00813503 02813303 00331313 5=arr 006282b3 00a2b023 fbdff06f",
    ),
];

#[test]
fn each_loop_has_its_instructions(rt: HostRuntime) -> Result<(), Fail> {
    agree(&rt, rt.alloc(), &LOOPS)
}

/// Returns.
const RETURNS: [Row; 6] = [
    // to the end of the function
    ("return 7;", "00700513 0080006f"),
    // behind the value
    (
        "return a + b;",
        "00013503 02a13423 00813503 02813283 00a28533 0080006f",
    ),
    // the value of a call stays in a0
    (
        "return g(a);",
        "00013503 02a13423 02813503 5=f1 000280e7 0080006f",
    ),
    // what follows is compiled too
    ("return a; b = 2;", "00013503 0100006f 00200513 00a13423"),
    // from a loop to the end of the function
    (
        "while (a) return b;",
        "00013503 00051463 0100006f 00813503 00c0006f fedff06f",
    ),
    // from two loops
    (
        "for (;;) while (a) return b;",
        "00013503 00051463 0100006f 00813503 0100006f fedff06f fe9ff06f",
    ),
];

#[test]
fn each_return_goes_to_the_end(rt: HostRuntime) -> Result<(), Fail> {
    agree(&rt, rt.alloc(), &RETURNS)
}
