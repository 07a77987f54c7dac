//! Statements that set locals, variables and elements, and expressions as statements.

use crate::rows::{Row, agree};
use std::test::Fail;

/// Statements that set something.
const SETTINGS: [Row; 24] = [
    // from the slot of b to that of a
    ("a = b;", "00813503 00a13023"),
    // a number that takes two words
    ("a = 2048;", "00001537 8005051b 00a13023"),
    // a number is stored as it is
    ("u = -1;", "00100513 40a00533 00a13823"),
    // the address of a function
    ("q = f;", "10=f 02a13023"),
    // a pointer from a pointer
    ("q0 = q0;", "01813503 00a13c23"),
    // a declaration without a value sets 0
    ("long i;", "02013423"),
    // a declaration with a value sets it; the first local follows the five parameters
    ("long i = a;", "00013503 02a13423"),
    // each declaration is a local of its own, in order
    (
        "long i; long j = 2; i = j;",
        "02013423 00200513 02a13823 03013503 02a13423",
    ),
    // a pointer without a value is null
    ("fn1 r; r = g;", "02013423 10=f1 02a13423"),
    // a pointer with a value, and a call by it
    (
        "fn1 r = g; r(a);",
        "10=f1 02a13423 00013503 02a13823 02813503 00050293 00029a63 00300513 00300593 40200893 00000073 03013503 000280e7",
    ),
    // a variable of another unit: the address is taken after the value
    ("x = a;", "00013503 5=x 00a2b023"),
    // a static variable, and a value that is held
    (
        "s = a + b;",
        "00013503 02a13423 00813503 02813283 00a28533 5=v0 00a2b023",
    ),
    // a static pointer
    ("p = g;", "10=f1 5=v3 00a2b023"),
    // the index is held while the value is computed
    (
        "arr[a] = b;",
        "00013503 00a00313 00656a63 00100513 00300593 40200893 00000073 02a13423 00813503 02813303 00331313 5=arr 006282b3 00a2b023",
    ),
    // a constant index is checked too
    (
        "arr[0] = 1;",
        "00000513 00a00313 00656a63 00100513 00300593 40200893 00000073 02a13423 00100513 02813303 00331313 5=arr 006282b3 00a2b023",
    ),
    // a size of 2,048 is no immediate
    (
        "mid[a] = b;",
        "00013503 00001337 8003031b 00656a63 00100513 00300593 40200893 00000073 02a13423 00813503 02813303 00331313 5=v1 006282b3 00a2b023",
    ),
    // a size of 65,536 is one `lui` and an `addiw` of 0
    (
        "big[u] = a;",
        "01013503 00010337 0003031b 00656a63 00100513 00300593 40200893 00000073 02a13423 00013503 02813303 00331313 5=v2 006282b3 00a2b023",
    ),
    // the value holds from the second slot on
    (
        "arr[a] = b - 1;",
        "00013503 00a00313 00656a63 00100513 00300593 40200893 00000073 02a13423 00813503 02a13823 00100513 03013283 40a28533 02813303 00331313 5=arr 006282b3 00a2b023",
    ),
    // a call in the index
    (
        "arr[g(a)] = b;",
        "00013503 02a13423 02813503 5=f1 000280e7 00a00313 00656a63 00100513 00300593 40200893 00000073 02a13423 00813503 02813303 00331313 5=arr 006282b3 00a2b023",
    ),
    // a call in the value
    (
        "arr[a] = g(b);",
        "00013503 00a00313 00656a63 00100513 00300593 40200893 00000073 02a13423 00813503 02a13823 03013503 5=f1 000280e7 02813303 00331313 5=arr 006282b3 00a2b023",
    ),
    // elements as an index and as a value
    (
        "arr[arr[a]] = arr[b];",
        "00013503 00a00313 00656a63 00100513 00300593 40200893 00000073 00351513 5=arr 00a282b3 0002b503 00a00313 00656a63 00100513 00300593 40200893 00000073 02a13423 00813503 00a00313 00656a63 00100513 00300593 40200893 00000073 00351513 5=arr 00a282b3 0002b503 02813303 00331313 5=arr 006282b3 00a2b023",
    ),
    // the value of an element
    (
        "x = arr[a];",
        "00013503 00a00313 00656a63 00100513 00300593 40200893 00000073 00351513 5=arr 00a282b3 0002b503 5=x 00a2b023",
    ),
    // an expression alone
    ("g(a);", "00013503 02a13423 02813503 5=f1 000280e7"),
    // input is output
    ("__out(__in());", "40000893 00000073 40100893 00000073"),
];

#[test]
fn each_setting_has_its_instructions(rt: HostRuntime) -> Result<(), Fail> {
    agree(&rt, rt.alloc(), &SETTINGS)
}
