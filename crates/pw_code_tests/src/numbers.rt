//! Numbers at every boundary of the code that loads them.

use crate::rows::{Row, agree};
use std::test::Fail;

/// Numbers, and the instructions that load them.
const NUMBERS: [Row; 19] = [
    // the least immediate that is not negative
    ("0;", "00000513"),
    // the greatest immediate
    ("2047;", "7ff00513"),
    // one more: two instructions, and the low part is negative
    ("2048;", "00001537 8005051b"),
    // a low part of zero
    ("4096;", "00001537 0005051b"),
    // the last number whose upper part is below 2^19
    ("2147481599;", "7ffff537 7ff5051b"),
    // the upper part is 2^19 and wraps; the sum wraps back
    ("2147481600;", "80000537 8005051b"),
    // the greatest number of 32 bits
    ("2147483647;", "80000537 fff5051b"),
    // one more: the rest is loaded first
    ("2147483648;", "00080537 0005051b 00c51513 00050513"),
    // 32 ones are no negative number
    ("4294967295;", "00100537 0005051b 00c51513 fff50513"),
    // a rest of 20 bits
    ("4294967296;", "00100537 0005051b 00c51513 00050513"),
    // the greatest number of 44 bits: the rest is 2^32
    (
        "17592186044415;",
        "00100537 0005051b 00c51513 00050513 00c51513 fff50513",
    ),
    // eight words
    (
        "0x123456789abcdef0;",
        "01234537 5685051b 00c51513 89b50513 00c51513 bce50513 00c51513 ef050513",
    ),
    // the greatest long: the low part is -1, and the difference wraps
    (
        "9223372036854775807;",
        "f8000537 0005051b 00c51513 00050513 00c51513 00050513 00c51513 fff50513",
    ),
    // the least long
    (
        "0x8000000000000000;",
        "f8000537 0005051b 00c51513 00050513 00c51513 00050513 00c51513 00050513",
    ),
    // all ones are -1
    ("0xffffffffffffffff;", "fff00513"),
    // the least immediate
    ("0xfffffffffffff800;", "80000513"),
    // one less: two instructions
    ("0xfffffffffffff7ff;", "fffff537 7ff5051b"),
    // the least number of 32 bits
    ("0xffffffff80000000;", "80000537 0005051b"),
    // one less: the rest is loaded first
    ("0xffffffff7fffffff;", "fff80537 0005051b 00c51513 fff50513"),
];

#[test]
fn each_number_has_its_instructions(rt: HostRuntime) -> Result<(), Fail> {
    agree(&rt, rt.alloc(), &NUMBERS)
}
