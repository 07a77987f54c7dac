//! Names, elements of arrays, and unary operators.

use crate::rows::{Row, agree};
use std::test::Fail;

/// Names, elements and unary operators.
const NAMES: [Row; 17] = [
    // the first parameter has the slot 0
    ("a;", "00013503"),
    // the third has the slot 16
    ("u;", "01013503"),
    // a variable of another unit, by its name
    ("x;", "5=x 0002b503"),
    // a static variable, by its number in the unit
    ("s;", "5=v0 0002b503"),
    // a static pointer
    ("p;", "5=v3 0002b503"),
    // a function of another unit as a value
    (
        "f == q;",
        "10=f 02a13423 02013503 02813283 00a2c533 00153513",
    ),
    // a static function as a value
    (
        "p == g;",
        "5=v3 0002b503 02a13423 10=f1 02813283 00a2c533 00153513",
    ),
    // the index is compared as an unsigned number
    (
        "arr[a];",
        "00013503 00a00313 00656a63 00100513 00300593 40200893 00000073 00351513 5=arr 00a282b3 0002b503",
    ),
    // a size of 65,536 takes one `lui` and an `addiw` of 0
    (
        "big[a];",
        "00013503 00010337 0003031b 00656a63 00100513 00300593 40200893 00000073 00351513 5=v2 00a282b3 0002b503",
    ),
    // a size of 2,048 is no immediate
    (
        "mid[a];",
        "00013503 00001337 8003031b 00656a63 00100513 00300593 40200893 00000073 00351513 5=v1 00a282b3 0002b503",
    ),
    // the index of the outer one is the element of the inner one
    (
        "arr[arr[a]];",
        "00013503 00a00313 00656a63 00100513 00300593 40200893 00000073 00351513 5=arr 00a282b3 0002b503 00a00313 00656a63 00100513 00300593 40200893 00000073 00351513 5=arr 00a282b3 0002b503",
    ),
    // from zero
    ("-a;", "00013503 40a00533"),
    // the other bits
    ("~a;", "00013503 fff54513"),
    // whether it is zero
    ("!a;", "00013503 00153513"),
    // no instruction
    ("+a;", "00013503"),
    // whether a pointer is null
    ("!q;", "02013503 00153513"),
    // from the inside out
    ("-~!+a;", "00013503 00153513 fff54513 40a00533"),
];

#[test]
fn each_name_has_its_instructions(rt: HostRuntime) -> Result<(), Fail> {
    agree(&rt, rt.alloc(), &NAMES)
}
