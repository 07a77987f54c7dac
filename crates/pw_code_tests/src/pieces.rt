//! Pieces of code by themselves, at lines that no text reaches too.

use crate::rows::shown;
use pw_genexpr::{put_check_index, put_check_nonzero, put_fault};
use pw_isa::registers::S1;
use std::test::Fail;

/// Lines at every boundary of the code that loads them, and the code of a fault there.
const FAULTS: [(u32, &str); 8] = [
    // one instruction
    (1, "00100513 00100593 40200893 00000073"),
    // the last of one
    (2047, "00100513 7ff00593 40200893 00000073"),
    // the first of two
    (2048, "00100513 000015b7 8005859b 40200893 00000073"),
    // the last whose upper part is positive
    (2147481599, "00100513 7ffff5b7 7ff5859b 40200893 00000073"),
    // the first whose upper part wraps
    (2147481600, "00100513 800005b7 8005859b 40200893 00000073"),
    // the last of 31 bits
    (2147483647, "00100513 800005b7 fff5859b 40200893 00000073"),
    // the first that needs more than 31 bits
    (
        2147483648,
        "00100513 000805b7 0005859b 00c59593 00058593 40200893 00000073",
    ),
    // the last line
    (
        4294967295,
        "00100513 001005b7 0005859b 00c59593 fff58593 40200893 00000073",
    ),
];

#[test]
fn a_checked_fault_loads_its_kind_and_its_line(rt: HostRuntime) -> Result<(), Fail> {
    let alloc = rt.alloc();
    for (line, expected) in FAULTS {
        let mut items = Vec::new(alloc);
        put_fault(1, line, &mut items)?;
        assert_eq!(&rt; shown(alloc, items.as_slice())?.as_str(), expected);
    }
    Ok(())
}

#[test]
fn a_test_goes_past_its_fault_however_long_that_is(rt: HostRuntime) -> Result<(), Fail> {
    let alloc = rt.alloc();
    let mut items = Vec::new(alloc);
    put_check_nonzero(S1, 4, 2047, &mut items)?;
    put_check_nonzero(S1, 4, 4294967295, &mut items)?;
    let expected =
        "00049a63 00400513 7ff00593 40200893 00000073 02049063 00400513 001005b7 0005859b 00c59593 fff58593 40200893 00000073";
    assert_eq!(&rt; shown(alloc, items.as_slice())?.as_str(), expected);
    Ok(())
}

/// Sizes of arrays and lines, and the check of an index.
const INDEXES: [(u32, u32, &str); 4] = [
    // the least
    (
        1,
        1,
        "00100313 00656a63 00100513 00100593 40200893 00000073",
    ),
    // the last of one instruction
    (
        2047,
        2047,
        "7ff00313 00656a63 00100513 7ff00593 40200893 00000073",
    ),
    // the first of two
    (
        2048,
        2048,
        "00001337 8003031b 00656c63 00100513 000015b7 8005859b 40200893 00000073",
    ),
    // the largest size and the last line
    (
        65536,
        4294967295,
        "00010337 0003031b 02656063 00100513 001005b7 0005859b 00c59593 fff58593 40200893 00000073",
    ),
];

#[test]
fn an_index_is_checked_against_the_size_as_an_unsigned_number(rt: HostRuntime) -> Result<(), Fail> {
    let alloc = rt.alloc();
    for (size, line, expected) in INDEXES {
        let mut items = Vec::new(alloc);
        put_check_index(size, line, &mut items)?;
        assert_eq!(&rt; shown(alloc, items.as_slice())?.as_str(), expected);
    }
    Ok(())
}
