//! A list of units as a row of a table, and whether they merge into what the row says.

ghost use Rattle.std.specs.List.{AllByRecursion};
ghost use Rattle.pw_code.specs.Soundness.{IsSound};

use crate::digest::digest;
use crate::sources::objects;
use pw_base::Kind;
use pw_code::Object;
use pw_place::{LinkError, Placed, What, merge};
use sqlite_items::Items;
use std::alloc::Global;
use std::process::Abort;
use std::test::Fail;

/// Units and the module that they are to make.
pub(crate) struct Row {
    /// What the row is there for.
    pub(crate) why: &'static str,
    pub(crate) kind: Kind,
    /// The name and the text of each unit.
    pub(crate) units: &'static [(&'static str, &'static str)],
    /// The words of the text.
    pub(crate) words: usize,
    /// The names that have slots.
    pub(crate) slots: &'static [&'static str],
    /// The bytes that the file has of the data, and the zeros after them.
    pub(crate) bytes: usize,
    pub(crate) zeros: u64,
    pub(crate) symbols: usize,
    pub(crate) relocations: usize,
    /// All parts as one number.
    pub(crate) digest: u64,
}

/// Units that make no module.
pub(crate) struct Refused {
    /// What the row is there for.
    pub(crate) why: &'static str,
    pub(crate) kind: Kind,
    /// The name and the text of each unit.
    pub(crate) units: &'static [(&'static str, &'static str)],
    /// The fault, as `spelled` has it.
    pub(crate) fault: &'static str,
}

/// What there are too many of.
fn name_of(what: What) -> &'static str {
    match what {
        What::Units => "units",
        What::Names => "names",
        What::Elements => "elements",
        What::TextBytes => "bytes of text",
    }
}

/// A fault in words.
pub(crate) fn spelled(alloc: Global, fault: &LinkError) -> Result<Vec<u8>, Fail> {
    let mut text = Vec::new(alloc);
    match fault {
        LinkError::TooMany(what, count) => {
            let count = format!(in alloc; "{count} ")?;
            text.extend_from_slice(count.as_bytes())?;
            text.extend_from_slice(name_of(*what).as_bytes())?;
        }
        LinkError::Duplicate(name) => {
            text.extend_from_slice(b"twice ")?;
            text.extend_from_slice(name.bytes())?;
        }
        LinkError::TypeDiffers(name, first, other) => {
            text.extend_from_slice(name.bytes())?;
            text.extend_from_slice(b" ")?;
            text.extend_from_slice(first.bytes())?;
            text.extend_from_slice(b" ")?;
            text.extend_from_slice(other.bytes())?;
        }
        LinkError::NoMain => text.extend_from_slice(b"no main")?,
        LinkError::MainType(found) => {
            text.extend_from_slice(b"main ")?;
            text.extend_from_slice(found.bytes())?;
        }
        LinkError::NoMemory => text.extend_from_slice(b"no memory")?,
    }
    Ok(text)
}

/// Fails where a slot has another name than the row's.
fn agree_on_slots(rt: &impl Abort, placed: &Placed, row: &Row) {
    let why = row.why;
    assert_eq!(rt; placed.got.len(), row.slots.len(), "{why}");
    for (n, name) in placed.got.as_slice().iter().enumerate() {
        match row.slots.get(n) {
            Some(want) => assert!(rt; name.bytes() == want.as_bytes(), "{why}"),
            None => assert!(rt; false, "{why}"),
        }
    }
}

/// Fails where a part of the module is another than the row's.
fn agree_on_parts(rt: &impl Abort, placed: &Placed, row: &Row) {
    let why = row.why;
    assert_eq!(rt; placed.text.len(), row.words, "{why}");
    assert_eq!(rt; placed.bytes.len(), row.bytes, "{why}");
    assert_eq!(rt; placed.zeros, row.zeros, "{why}");
    assert_eq!(rt; placed.symbols.len(), row.symbols, "{why}");
    assert_eq!(rt; placed.relocs.len(), row.relocations, "{why}");
    assert_eq!(rt; digest(placed), row.digest, "{why}");
}

/// Fails where the units of a row make another module than the row's.
pub(crate) fn agree(rt: &impl Abort, alloc: Global, row: &Row) -> Result<(), Fail> {
    let objects = objects(alloc, row.units)?;
    match merge(alloc, &objects, row.kind) {
        Ok(placed) => {
            agree_on_slots(rt, &placed, row);
            agree_on_parts(rt, &placed, row);
        }
        Err(_) => assert!(rt; false, "{}", row.why),
    }
    Ok(())
}

/// Fails where objects make a module, or another fault than this.
pub(crate) fn is_refused(
    rt: &impl Abort,
    alloc: Global,
    objects: &Items<Object>,
    kind: Kind,
    fault: &str,
    why: &str,
) -> Result<(), Fail>
    requires { AllByRecursion IsSound objects.now }
{
    match merge(alloc, objects, kind) {
        Ok(_) => assert!(rt; false, "{why}"),
        Err(found) => {
            let found = spelled(alloc, &found)?;
            assert!(rt; found.as_slice() == fault.as_bytes(), "{why}");
        }
    }
    Ok(())
}

/// Fails where the units of a row make a module, or another fault than the row's.
pub(crate) fn agree_on_fault(rt: &impl Abort, alloc: Global, row: &Refused) -> Result<(), Fail> {
    let objects = objects(alloc, row.units)?;
    is_refused(rt, alloc, &objects, row.kind, row.fault, row.why)
}
