//! Damaged tables, each with its first fault as an independent model of the format gives it.

use crate::tables::{TABLE, field_changed, refuses};
use pw_module::DepError;
use std::alloc::Global;
use std::process::Abort;
use std::test::Fail;

/// The offset of a field, the value that is put there, and the refusal; `None` where the table is still read.
type Row = (usize, u32, Option<DepError>);

/// The version and the counts.
const HEAD: [Row; 17] = [
    // the version
    (0, 0, Some(DepError::Version(0))),
    (0, 2, Some(DepError::Version(2))),
    (0, 3, Some(DepError::Version(3))),
    (0, 0x1000000, Some(DepError::Version(16777216))),
    (0, 0xffffffff, Some(DepError::Version(4294967295))),
    // the number of units
    (4, 0, Some(DepError::Short(152))),
    (4, 3, Some(DepError::BadName(2))),
    (4, 0xffffffff, Some(DepError::BadName(2))),
    // the number of functions
    (8, 0, Some(DepError::BadRange(0))),
    (8, 4, Some(DepError::BadIndex(3, 2))),
    (8, 0xffffffff, Some(DepError::BadIndex(3, 2))),
    // the number of roots
    (12, 0, Some(DepError::BadType(0))),
    (12, 3, Some(DepError::BadIndex(0, 694954092))),
    (12, 0xffffffff, Some(DepError::BadIndex(3, 694954092))),
    // the number of types
    (16, 0, Some(DepError::Trailing(120))),
    (16, 4, Some(DepError::Short(155))),
    (16, 0xffffffff, Some(DepError::Short(155))),
];

/// The lengths of the units' names.
const UNITS: [Row; 6] = [
    // the length of the first unit's name
    (20, 0, Some(DepError::BadName(0))),
    (20, 4, Some(DepError::BadName(0))),
    (20, 0xffffffff, Some(DepError::Short(24))),
    // the length of the second unit's name
    (27, 0, Some(DepError::BadName(1))),
    (27, 2, Some(DepError::BadName(1))),
    (27, 0xffffffff, Some(DepError::Short(31))),
];

/// The fields of the functions: symbol, unit, start, size, the count and the symbols on which they depend.
const FUNCTIONS: [Row; 67] = [
    // the entry's symbol
    (32, 0, Some(DepError::BadIndex(0, 0))),
    (32, 5, None),
    (32, 6, Some(DepError::BadIndex(0, 6))),
    (32, 0xffffffff, Some(DepError::BadIndex(0, 4294967295))),
    // its unit: it has none, and may have one
    (36, 0, None),
    (36, 1, None),
    (36, 2, Some(DepError::BadIndex(0, 2))),
    (36, 0xfffffffe, Some(DepError::BadIndex(0, 4294967294))),
    // its start
    (40, 4, Some(DepError::BadRange(0))),
    (40, 0xffffffff, Some(DepError::BadRange(0))),
    // its size
    (44, 0, Some(DepError::BadRange(0))),
    (44, 20, Some(DepError::BadRange(1))),
    (44, 23, Some(DepError::BadRange(0))),
    (44, 28, Some(DepError::Overlap(1))),
    (44, 0xfffffffc, Some(DepError::BadRange(0))),
    // on how many symbols it depends
    (48, 0, Some(DepError::BadIndex(1, 2))),
    (48, 2, Some(DepError::BadIndex(1, 0))),
    (48, 0xffffffff, Some(DepError::Short(152))),
    // the symbol on which it depends
    (52, 0, Some(DepError::BadIndex(0, 0))),
    (52, 5, None),
    (52, 6, Some(DepError::BadIndex(0, 6))),
    (52, 0xffffffff, Some(DepError::BadIndex(0, 4294967295))),
    // the second function's symbol
    (56, 0, Some(DepError::BadIndex(1, 0))),
    (56, 5, None),
    (56, 6, Some(DepError::BadIndex(1, 6))),
    (56, 0xffffffff, Some(DepError::BadIndex(1, 4294967295))),
    // its unit: 0xffffffff is none
    (60, 1, None),
    (60, 2, Some(DepError::BadIndex(1, 2))),
    (60, 0xfffffffe, Some(DepError::BadIndex(1, 4294967294))),
    (60, 0xffffffff, None),
    // its start, right after the entry
    (64, 20, Some(DepError::Overlap(1))),
    (64, 28, Some(DepError::BadRange(1))),
    (64, 0xffffffff, Some(DepError::BadRange(1))),
    // its size
    (68, 0, Some(DepError::BadRange(1))),
    (68, 4, Some(DepError::BadRange(2))),
    (68, 7, Some(DepError::BadRange(1))),
    (68, 12, Some(DepError::Overlap(2))),
    (68, 0xfffffffc, Some(DepError::BadRange(1))),
    // on how many symbols it depends
    (72, 0, Some(DepError::Short(152))),
    (72, 3, Some(DepError::BadIndex(2, 32))),
    (72, 0xffffffff, Some(DepError::Short(152))),
    // the first of them
    (76, 0, Some(DepError::BadIndex(1, 0))),
    (76, 5, None),
    (76, 6, Some(DepError::BadIndex(1, 6))),
    (76, 0xffffffff, Some(DepError::BadIndex(1, 4294967295))),
    // the second
    (80, 0, Some(DepError::BadIndex(1, 0))),
    (80, 5, None),
    (80, 6, Some(DepError::BadIndex(1, 6))),
    (80, 0xffffffff, Some(DepError::BadIndex(1, 4294967295))),
    // the third function's symbol
    (84, 0, Some(DepError::BadIndex(2, 0))),
    (84, 5, None),
    (84, 6, Some(DepError::BadIndex(2, 6))),
    (84, 0xffffffff, Some(DepError::BadIndex(2, 4294967295))),
    // its unit
    (88, 0, None),
    (88, 2, Some(DepError::BadIndex(2, 2))),
    (88, 0xfffffffe, Some(DepError::BadIndex(2, 4294967294))),
    (88, 0xffffffff, None),
    // its start
    (92, 28, Some(DepError::Overlap(2))),
    (92, 36, Some(DepError::BadRange(2))),
    (92, 0xffffffff, Some(DepError::BadRange(2))),
    // its size: the text ends where it does
    (96, 0, Some(DepError::BadRange(2))),
    (96, 8, Some(DepError::BadRange(2))),
    (96, 11, Some(DepError::BadRange(2))),
    (96, 16, Some(DepError::BadRange(2))),
    (96, 0xfffffffc, Some(DepError::BadRange(2))),
    // on how many symbols it depends
    (100, 1, Some(DepError::Short(132))),
    (100, 0xffffffff, Some(DepError::Short(152))),
];

/// The symbols of the roots.
const ROOTS: [Row; 13] = [
    // the first root's variable
    (104, 0, Some(DepError::BadIndex(0, 0))),
    (104, 5, None),
    (104, 6, Some(DepError::BadIndex(0, 6))),
    (104, 0xffffffff, Some(DepError::BadIndex(0, 4294967295))),
    // the first root's function
    (108, 0, Some(DepError::BadIndex(0, 0))),
    (108, 3, None),
    (108, 0xffffffff, Some(DepError::BadIndex(0, 4294967295))),
    // the second root's variable
    (112, 0, Some(DepError::BadIndex(1, 0))),
    (112, 6, Some(DepError::BadIndex(1, 6))),
    (112, 0xffffffff, Some(DepError::BadIndex(1, 4294967295))),
    // the second root's function
    (116, 0, Some(DepError::BadIndex(1, 0))),
    (116, 4, None),
    (116, 0xffffffff, Some(DepError::BadIndex(1, 4294967295))),
];

/// The symbols and lengths of the types.
const TYPES: [Row; 21] = [
    // the first type's symbol, below the next one's
    (120, 0, Some(DepError::BadIndex(0, 0))),
    (120, 5, Some(DepError::BadIndex(1, 3))),
    (120, 6, Some(DepError::BadIndex(0, 6))),
    (120, 0xffffffff, Some(DepError::BadIndex(0, 4294967295))),
    // the length of its type string
    (124, 0, Some(DepError::BadType(0))),
    (124, 5, Some(DepError::BadType(0))),
    (124, 0xffffffff, Some(DepError::Short(128))),
    // the second type's symbol
    (132, 0, Some(DepError::BadIndex(1, 0))),
    (132, 5, Some(DepError::BadIndex(2, 4))),
    (132, 6, Some(DepError::BadIndex(1, 6))),
    (132, 0xffffffff, Some(DepError::BadIndex(1, 4294967295))),
    // the length of its type string
    (136, 0, Some(DepError::BadType(1))),
    (136, 4, Some(DepError::BadType(1))),
    (136, 0xffffffff, Some(DepError::Short(140))),
    // the third type's symbol
    (143, 0, Some(DepError::BadIndex(2, 0))),
    (143, 5, None),
    (143, 6, Some(DepError::BadIndex(2, 6))),
    (143, 0xffffffff, Some(DepError::BadIndex(2, 4294967295))),
    // the length of its type string
    (147, 0, Some(DepError::BadType(2))),
    (147, 5, Some(DepError::Short(151))),
    (147, 0xffffffff, Some(DepError::Short(151))),
];

/// How many bytes of the table are left, and where the first field is that passes the end.
const CUTS: [(usize, Option<DepError>); 24] = [
    // nothing
    (0, Some(DepError::Short(0))),
    // a part of the version
    (3, Some(DepError::Short(0))),
    // before the number of units
    (4, Some(DepError::Short(4))),
    // a part of the number of types
    (19, Some(DepError::Short(16))),
    // before the first unit
    (20, Some(DepError::Short(20))),
    // a part of its length
    (23, Some(DepError::Short(20))),
    // before its bytes
    (24, Some(DepError::Short(24))),
    // a part of its bytes
    (26, Some(DepError::Short(24))),
    // before the second unit
    (27, Some(DepError::Short(27))),
    // before its byte
    (31, Some(DepError::Short(31))),
    // before the entry
    (32, Some(DepError::Short(32))),
    // a part of the count of its dependencies
    (51, Some(DepError::Short(48))),
    // a part of its dependency
    (55, Some(DepError::Short(52))),
    // before the second function
    (56, Some(DepError::Short(56))),
    // before its dependencies
    (76, Some(DepError::Short(76))),
    // a part of the third function's size
    (99, Some(DepError::Short(96))),
    // before the first root
    (104, Some(DepError::Short(104))),
    // a part of its variable
    (107, Some(DepError::Short(104))),
    // a part of the second root's function
    (119, Some(DepError::Short(116))),
    // a part of the first type's symbol
    (123, Some(DepError::Short(120))),
    // a part of its length
    (127, Some(DepError::Short(124))),
    // a part of its string
    (131, Some(DepError::Short(128))),
    // a part of the second string
    (142, Some(DepError::Short(140))),
    // a part of the third
    (154, Some(DepError::Short(151))),
];

/// How many symbols and how many bytes of text the file has.
const FRAMES: [(u32, u64, Option<DepError>); 12] = [
    // just so
    (6, 44, None),
    // a symbol more
    (7, 44, None),
    // the second root's variable is no symbol
    (5, 44, Some(DepError::BadIndex(1, 5))),
    // no symbol but the first, which is none
    (1, 44, Some(DepError::BadIndex(0, 1))),
    // no symbol at all
    (0, 44, Some(DepError::BadIndex(0, 1))),
    // as many symbols as there may be
    (0xffffffff, 44, None),
    // a text that ends too early
    (6, 40, Some(DepError::BadRange(2))),
    // by one byte
    (6, 43, Some(DepError::BadRange(2))),
    // a text that ends too late
    (6, 45, Some(DepError::BadRange(2))),
    // by one instruction
    (6, 48, Some(DepError::BadRange(2))),
    // no text
    (6, 0, Some(DepError::BadRange(0))),
    // the longest text
    (6, 0xffffffffffffffff, Some(DepError::BadRange(2))),
];

/// A byte of a string is changed: its offset, the byte and the refusal.
const STRINGS: [(usize, u8, Option<DepError>); 13] = [
    // a blank in a name
    (24, 0x20, Some(DepError::BadName(0))),
    // a zero in a name
    (26, 0x0, Some(DepError::BadName(0))),
    // a byte above 126
    (31, 0xc3, Some(DepError::BadName(1))),
    // void is a result
    (128, 0x76, None),
    // void is no parameter
    (130, 0x76, Some(DepError::BadType(0))),
    // a second bracket
    (130, 0x29, Some(DepError::BadType(0))),
    // no `(`
    (129, 0x29, Some(DepError::BadType(0))),
    // no such pointer
    (140, 0x37, Some(DepError::BadType(1))),
    // no `)`
    (142, 0x28, Some(DepError::BadType(1))),
    // void is no element
    (151, 0x76, Some(DepError::BadType(2))),
    // a size of 0
    (153, 0x30, Some(DepError::BadType(2))),
    // a letter as a size
    (153, 0x41, Some(DepError::BadType(2))),
    // another bracket at the end
    (154, 0x29, Some(DepError::BadType(2))),
];

/// Fails where a table with one changed field is not refused as its row says.
fn are_refused(rt: &impl Abort, alloc: Global, rows: &[Row]) -> Result<(), Fail> {
    for (at, value, expected) in rows {
        let bytes = field_changed(rt, alloc, TABLE.as_slice(), *at, *value)?;
        assert!(rt;
            refuses(alloc, bytes.as_slice(), 6, 44, *expected),
            "{at}: {value}"
        );
    }
    Ok(())
}

#[test]
fn counts_and_version_are_judged_first(rt: HostRuntime) -> Result<(), Fail> {
    are_refused(&rt, rt.alloc(), &HEAD)
}

#[test]
fn a_unit_has_a_name(rt: HostRuntime) -> Result<(), Fail> {
    are_refused(&rt, rt.alloc(), &UNITS)
}

#[test]
fn a_function_names_symbols_and_stands_after_its_former(rt: HostRuntime) -> Result<(), Fail> {
    are_refused(&rt, rt.alloc(), &FUNCTIONS)
}

#[test]
fn a_root_names_symbols(rt: HostRuntime) -> Result<(), Fail> {
    are_refused(&rt, rt.alloc(), &ROOTS)
}

#[test]
fn types_ascend_and_have_a_type_string(rt: HostRuntime) -> Result<(), Fail> {
    are_refused(&rt, rt.alloc(), &TYPES)
}

#[test]
fn a_cut_table_is_short(rt: HostRuntime) -> Result<(), Fail> {
    for (length, expected) in &CUTS {
        assert!(rt; *length <= TABLE.len());
        assert!(rt;
            refuses(rt.alloc(), &TABLE[..*length], 6, 44, *expected),
            "{length}"
        );
    }
    Ok(())
}

#[test]
fn numbers_are_held_against_the_file(rt: HostRuntime) -> Result<(), Fail> {
    for (symbols, text, expected) in &FRAMES {
        assert!(rt;
            refuses(rt.alloc(), TABLE.as_slice(), *symbols, *text, *expected),
            "{symbols}: {text}"
        );
    }
    Ok(())
}

#[test]
fn a_byte_of_a_string_is_judged(rt: HostRuntime) -> Result<(), Fail> {
    for (at, value, expected) in &STRINGS {
        let mut bytes = Vec::from_slice(rt.alloc(), TABLE.as_slice())?;
        assert!(rt; *at < bytes.len());
        bytes[*at] = *value;
        assert!(rt;
            refuses(rt.alloc(), bytes.as_slice(), 6, 44, *expected),
            "{at}: {value}"
        );
    }
    Ok(())
}
