//! `&&`, `||` and `?:`, and how far their jumps go.

use crate::rows::{Row, agree};
use std::test::Fail;

/// Choices.
const CHOICES: [Row; 14] = [
    // past one word and the truth of it
    ("a && b;", "00013503 00051463 00c0006f 00813503 00a03533"),
    // the truth of the left operand stays where it decides
    (
        "a || b;",
        "00013503 00a03533 00050463 00c0006f 00813503 00a03533",
    ),
    // `&&` as a left operand
    (
        "a && b || u;",
        "00013503 00051463 00c0006f 00813503 00a03533 00a03533 00050463 00c0006f 01013503 00a03533",
    ),
    // `&&` as a right operand: past its five words
    (
        "a || b && u;",
        "00013503 00a03533 00050463 01c0006f 00813503 00051463 00c0006f 01013503 00a03533 00a03533",
    ),
    // past the inner jump
    (
        "a && (b && u);",
        "00013503 00051463 01c0006f 00813503 00051463 00c0006f 01013503 00a03533 00a03533",
    ),
    // `||` as a left operand
    (
        "(a || b) && !a;",
        "00013503 00a03533 00050463 00c0006f 00813503 00a03533 00051463 0100006f 00013503 00153513 00a03533",
    ),
    // a held value beside `&&`
    (
        "a - (b && u);",
        "00013503 02a13423 00813503 00051463 00c0006f 01013503 00a03533 02813283 40a28533",
    ),
    // `&&` holds nothing: its right operand begins with slot 0
    (
        "a && b - u;",
        "00013503 00051463 01c0006f 00813503 02a13423 01013503 02813283 40a28533 00a03533",
    ),
    // past one word and the jump over the other
    (
        "a ? b : u;",
        "00013503 00051463 00c0006f 00813503 0080006f 01013503",
    ),
    // a choice in a choice
    (
        "a ? b ? 1 : 2 : 3;",
        "00013503 00051463 0200006f 00813503 00051463 00c0006f 00100513 0080006f 00200513 0080006f 00300513",
    ),
    // a choice after the colon
    (
        "a ? b : u ? 1 : 2;",
        "00013503 00051463 00c0006f 00813503 01c0006f 01013503 00051463 00c0006f 00100513 0080006f 00200513",
    ),
    // past eight words, and over two
    (
        "a ? 0x123456789abcdef0 : 2048;",
        "00013503 00051463 0280006f 01234537 5685051b 00c51513 89b50513 00c51513 bce50513 00c51513 ef050513 00c0006f 00001537 8005051b",
    ),
    // an address is two words
    (
        "a ? x : arr[b];",
        "00013503 00051463 0140006f 5=x 0002b503 0340006f 00813503 00a00313 00656a63 00100513 00300593 40200893 00000073 00351513 5=arr 00a282b3 0002b503",
    ),
    // a pointer that is chosen
    (
        "(a ? f : q)(a, b);",
        "00013503 02a13423 00813503 02a13823 00013503 00051463 0100006f 10=f 0080006f 02013503 00050293 00029a63 00300513 00300593 40200893 00000073 02813503 03013583 000280e7",
    ),
];

#[test]
fn each_choice_has_its_instructions(rt: HostRuntime) -> Result<(), Fail> {
    agree(&rt, rt.alloc(), &CHOICES)
}
