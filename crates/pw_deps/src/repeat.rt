//! Several records of a kind, one after another.
ghost use Rattle.std.specs.Prelude.{◌≡◌, ◌≤◌, [], length, IfOk};
ghost use Rattle.pw_module.specs.Answer.{ReadsAs};
ghost use Rattle.pw_module.specs.Reading.{many, remaining, dependency_at, unit_record_at, function_record_at, root_record_at, type_record_at};

use crate::field::Frame;
use crate::record::{dep, function, root, type_record, unit};
use pw_base::Name;
use pw_module::{DepError, FunRec, RootRec, TypeRec};
use sqlite_items::Items;
use std::alloc::{AllocError, Global};

/// The fewest bytes of a unit, of a function, of a root, of a type and of a number.
const UNIT_BYTES: usize = 4;

const FUNCTION_BYTES: usize = 20;

const ROOT_BYTES: usize = 8;

const TYPE_BYTES: usize = 8;

const NUMBER_BYTES: usize = 4;

/// Room for so many records, but for no more than the bytes that are left can hold, of which each has at least `least`.
fn room<T: Drop>(
    alloc: Global,
    count: u32,
    left: usize,
    least: usize,
) -> Result<Items<T>, AllocError>
    requires { 1 ≤ least }
    ensures { IfOk result (λ items. items ≡ []) }
{
    let count = (count as usize).min(left / least);
    Ok(Items::from_vec(Vec::with_capacity(alloc, count)?))
}

/// The symbols on which a function depends.
pub(crate) fn deps(
    alloc: Global,
    total: u64,
    count: u32,
    rest: &[u8],
) -> Result<(Items<u32>, &[u8]), DepError>
    requires { length rest.now ≤ total }
    ensures value { ReadsAs (λ x. (x.0, remaining 0 x.1.now)) result (many (dependency_at total) 0 count (remaining 0 rest.now)) }
    ensures shorter { IfOk result (λ x. length x.1.now ≤ length rest.now) }
{
    let mut numbers = room(alloc, count, rest.len(), NUMBER_BYTES)?;
    let mut left = rest;
    for index in 0..count {
        let (found, after) = dep(total, index, left)?;
        numbers.push(found)?;
        left = after;
    }
    Ok((numbers, left))
}

/// The units' names.
pub(crate) fn units(
    alloc: Global,
    total: u64,
    count: u32,
    rest: &[u8],
) -> Result<(Items<Name>, &[u8]), DepError>
    requires { length rest.now ≤ total }
    ensures value { ReadsAs (λ x. (x.0, remaining 0 x.1.now)) result (many (unit_record_at total) 0 count (remaining 0 rest.now)) }
    ensures shorter { IfOk result (λ x. length x.1.now ≤ length rest.now) }
{
    let mut names = room(alloc, count, rest.len(), UNIT_BYTES)?;
    let mut left = rest;
    for index in 0..count {
        let (found, after) = unit(alloc, total, index, left)?;
        names.push(found)?;
        left = after;
    }
    Ok((names, left))
}

/// The functions, where the last of them ends, and the bytes after them.
pub(crate) fn functions(
    alloc: Global,
    frame: Frame,
    units: u32,
    count: u32,
    rest: &[u8],
) -> Result<(Items<FunRec>, u64, &[u8]), DepError>
    requires { length rest.now ≤ frame.total }
    ensures value { ReadsAs (λ x. (x.0, remaining x.1 x.2.now)) result (many (function_record_at frame.symbols frame.text units frame.total) 0 count (remaining 0 rest.now)) }
    ensures shorter { IfOk result (λ x. length x.2.now ≤ length rest.now) }
{
    let mut functions = room(alloc, count, rest.len(), FUNCTION_BYTES)?;
    let mut left = rest;
    let mut former = 0u64;
    for index in 0..count {
        let (found, after) = function(alloc, frame, units, index, former, left)?;
        former = u64::from(found.start) + u64::from(found.size);
        functions.push(found)?;
        left = after;
    }
    Ok((functions, former, left))
}

/// The roots.
pub(crate) fn roots(
    alloc: Global,
    frame: Frame,
    count: u32,
    rest: &[u8],
) -> Result<(Items<RootRec>, &[u8]), DepError>
    requires { length rest.now ≤ frame.total }
    ensures value { ReadsAs (λ x. (x.0, remaining 0 x.1.now)) result (many (root_record_at frame.symbols frame.total) 0 count (remaining 0 rest.now)) }
    ensures shorter { IfOk result (λ x. length x.1.now ≤ length rest.now) }
{
    let mut roots = room(alloc, count, rest.len(), ROOT_BYTES)?;
    let mut left = rest;
    for index in 0..count {
        let (found, after) = root(frame, index, left)?;
        roots.push(found)?;
        left = after;
    }
    Ok((roots, left))
}

/// The types, the symbol of the last, and the bytes after them.
pub(crate) fn types(
    alloc: Global,
    frame: Frame,
    count: u32,
    rest: &[u8],
) -> Result<(Items<TypeRec>, u32, &[u8]), DepError>
    requires { length rest.now ≤ frame.total }
    ensures value { ReadsAs (λ x. (x.0, remaining x.1 x.2.now)) result (many (type_record_at frame.symbols frame.total) 0 count (remaining 0 rest.now)) }
    ensures shorter { IfOk result (λ x. length x.2.now ≤ length rest.now) }
{
    let mut types = room(alloc, count, rest.len(), TYPE_BYTES)?;
    let mut left = rest;
    let mut former = 0u32;
    for index in 0..count {
        let (found, after) = type_record(alloc, frame, index, former, left)?;
        former = found.sym;
        types.push(found)?;
        left = after;
    }
    Ok((types, former, left))
}
