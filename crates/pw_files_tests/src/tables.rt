//! A table of one function and one of every kind of record, read, refused and written back.

use pw_base::{Name, TypeText};
use pw_deps::{read, write};
use pw_module::{DepError, DepTable, FunRec, RootRec, TypeRec};
use sqlite_items::Items;
use std::alloc::Global;
use std::process::Abort;
use std::test::Fail;

/// The table of a unit `m.c` with the one function `main` of 60 bytes.
const ONE_FUNCTION: [u8; 58] = [
    1, 0, 0, 0, 1, 0, 0, 0, 1, 0, 0, 0, 0, 0, 0, 0, 1, 0, 0, 0, 3, 0, 0, 0, 109, 46, 99, 1, 0, 0,
    0, 0, 0, 0, 0, 0, 0, 0, 0, 60, 0, 0, 0, 0, 0, 0, 0, 1, 0, 0, 0, 3, 0, 0, 0, 108, 40, 41,
];

/// A table of two units, three functions, two roots and three types, for 6 symbols and 44 bytes of text.
pub(crate) const TABLE: [u8; 155] = [
    1, 0, 0, 0, 2, 0, 0, 0, 3, 0, 0, 0, 2, 0, 0, 0, 3, 0, 0, 0, 3, 0, 0, 0, 97, 46, 99, 1, 0, 0, 0,
    98, 1, 0, 0, 0, 255, 255, 255, 255, 0, 0, 0, 0, 24, 0, 0, 0, 1, 0, 0, 0, 2, 0, 0, 0, 2, 0, 0,
    0, 0, 0, 0, 0, 24, 0, 0, 0, 8, 0, 0, 0, 2, 0, 0, 0, 3, 0, 0, 0, 4, 0, 0, 0, 3, 0, 0, 0, 1, 0,
    0, 0, 32, 0, 0, 0, 12, 0, 0, 0, 0, 0, 0, 0, 4, 0, 0, 0, 2, 0, 0, 0, 5, 0, 0, 0, 3, 0, 0, 0, 2,
    0, 0, 0, 4, 0, 0, 0, 108, 40, 108, 41, 3, 0, 0, 0, 3, 0, 0, 0, 118, 40, 41, 4, 0, 0, 0, 4, 0,
    0, 0, 49, 91, 50, 93,
];

/// Whether reading the bytes is refused just so; `None` where they are to be read.
pub(crate) fn refuses(
    alloc: Global,
    bytes: &[u8],
    symbols: u32,
    text: u64,
    expected: Option<DepError>,
) -> bool {
    read(alloc, bytes, symbols, text).err() == expected
}

/// The bytes of a table with four bytes at an offset changed.
pub(crate) fn field_changed(
    rt: &impl Abort,
    alloc: Global,
    table: &[u8],
    at: usize,
    value: u32,
) -> Result<Vec<u8>, Fail> {
    assert!(rt; at < table.len());
    assert!(rt; 4 <= table.len() - at);
    let mut bytes = Vec::from_slice(alloc, &table[..at])?;
    pw_wire::put_u32(&mut bytes, value)?;
    bytes.extend_from_slice(&table[at + 4..])?;
    Ok(bytes)
}

/// A changed field of the table of one function: its offset, the value that is put there, and the refusal.
const CHANGED: [(usize, u32, DepError); 3] = [
    (0, 3, DepError::Version(3)),
    (0, 2, DepError::Version(2)),
    (8, 0xffffffff, DepError::Short(55)),
];

/// The table of one function with a byte after it.
fn one_byte_more(alloc: Global) -> Result<Vec<u8>, Fail> {
    let mut bytes = Vec::from_slice(alloc, ONE_FUNCTION.as_slice())?;
    bytes.extend_from_slice(&[0])?;
    Ok(bytes)
}

#[test]
fn the_table_of_one_function_has_58_bytes(rt: HostRuntime) -> Result<(), Fail> {
    let alloc = rt.alloc();
    assert!(rt; refuses(alloc, ONE_FUNCTION.as_slice(), 2, 60, None));
    assert!(rt; refuses(alloc, &ONE_FUNCTION[..57], 2, 60, Some(DepError::Short(55))));
    let longer = one_byte_more(alloc)?;
    assert!(rt;
        refuses(
            alloc,
            longer.as_slice(),
            2,
            60,
            Some(DepError::Trailing(58))
        )
    );
    Ok(())
}

#[test]
fn the_version_and_a_count_of_one_function_are_judged(rt: HostRuntime) -> Result<(), Fail> {
    for (at, value, expected) in &CHANGED {
        let bytes = field_changed(&rt, rt.alloc(), ONE_FUNCTION.as_slice(), *at, *value)?;
        assert!(rt;
            refuses(rt.alloc(), bytes.as_slice(), 2, 60, Some(*expected)),
            "{at}: {value}"
        );
    }
    Ok(())
}

/// Bytes that are no table, or one without functions.
const EMPTY: [u8; 20] = [1, 0, 0, 0, 0, 0, 0, 0, 0, 0, 0, 0, 0, 0, 0, 0, 0, 0, 0, 0];

#[test]
fn a_table_without_functions_has_no_text(rt: HostRuntime) -> Result<(), Fail> {
    let alloc = rt.alloc();
    assert!(rt; refuses(alloc, EMPTY.as_slice(), 1, 0, None));
    assert!(rt; refuses(alloc, EMPTY.as_slice(), 1, 4, Some(DepError::BadRange(0))));
    assert!(rt; refuses(alloc, &EMPTY[..0], 1, 0, Some(DepError::Short(0))));
    Ok(())
}

/// What a row says of a function: its symbol, its unit, where it starts, its bytes, and the symbols on which it depends.
type FunctionRow = (u32, Option<u32>, u32, u32, &'static [u32]);

/// The functions of the table.
const FUNCTIONS: [FunctionRow; 3] = [
    (1, None, 0, 24, &[2]),
    (2, Some(0), 24, 8, &[3, 4]),
    (3, Some(1), 32, 12, &[]),
];

/// Whether a function is that of a row.
fn is_function(found: &FunRec, row: &FunctionRow) -> bool {
    found.sym == row.0
        && found.unit == row.1
        && found.start == row.2
        && found.size == row.3
        && found.deps.as_slice() == row.4
}

/// Whether the functions are those of the table.
fn are_its_functions(found: &[FunRec]) -> bool {
    match found {
        [first, second, third] => {
            is_function(first, &FUNCTIONS[0])
                && is_function(second, &FUNCTIONS[1])
                && is_function(third, &FUNCTIONS[2])
        }
        _ => false,
    }
}

#[test]
fn each_field_of_a_table_is_read(rt: HostRuntime) -> Result<(), Fail> {
    let roots = [RootRec { var: 4, fun: 2 }, RootRec { var: 5, fun: 3 }];
    match read(rt.alloc(), TABLE.as_slice(), 6, 44) {
        Ok(table) => {
            assert!(rt; table.version == 1);
            assert!(rt; table.units.len() == 2);
            assert!(rt; are_its_functions(table.funs.as_slice()));
            assert!(rt; table.roots.as_slice() == roots.as_slice());
            assert!(rt; table.types.len() == 3);
        }
        Err(_) => assert!(rt; false),
    }
    Ok(())
}

/// Whether the table of these bytes is written to the same bytes.
fn is_written_again(alloc: Global, bytes: &[u8], symbols: u32, text: u64) -> Result<bool, Fail> {
    pw_deps::allowed_tables_can_be_written();
    match read(alloc, bytes, symbols, text) {
        Ok(table) => Ok(write(alloc, &table)?.as_slice() == bytes),
        Err(_) => Ok(false),
    }
}

#[test]
fn a_table_that_is_read_is_written_to_the_same_bytes(rt: HostRuntime) -> Result<(), Fail> {
    assert!(rt; is_written_again(rt.alloc(), TABLE.as_slice(), 6, 44)?);
    assert!(rt; is_written_again(rt.alloc(), ONE_FUNCTION.as_slice(), 2, 60)?);
    Ok(())
}

#[test]
fn a_table_that_is_made_is_written(rt: HostRuntime) -> Result<(), Fail> {
    let alloc = rt.alloc();
    let mut units = Items::new(alloc);
    units.push(Name::read(alloc, b"m.c")?)?;
    let mut funs = Items::new(alloc);
    funs.push(FunRec {
        sym: 1,
        unit: Some(0),
        start: 0,
        size: 60,
        deps: Items::new(alloc),
    })?;
    let mut types = Items::new(alloc);
    if let Some(text) = TypeText::read(alloc, b"l()")? {
        types.push(TypeRec { sym: 1, text })?;
    }
    let roots = Items::new(alloc);
    let table = DepTable {
        version: 1,
        units,
        funs,
        roots,
        types,
    };
    assert!(rt; write(alloc, &table)?.as_slice() == ONE_FUNCTION.as_slice());
    Ok(())
}
