//! The table that bytes are.
ghost use Rattle.std.specs.Prelude.{◌≡◌, ◌≤◌, length, IfOk, Ok};
ghost use Rattle.pw_module.specs.declared.dep_table.DepTable.{DepTable};
ghost use Rattle.pw_module.specs.Answer.{ReadsAs};
ghost use Rattle.pw_module.specs.Laws.{ReadsTable};
ghost use Rattle.pw_module.specs.Reading as definition;
ghost use Rattle.pw_module.specs.Reading.{table_at};
ghost use Rattle.pw_deps.specs.Steps.Counted.{counts_of};

use crate::check::end_fault;
use crate::field::{Frame, number};
use crate::repeat::{functions, roots, types, units};
use pw_module::{DepError, DepTable, FunRec};
use sqlite_items::Items;
use std::alloc::Global;

/// The version that is read.
const VERSION: u32 = 1;

/// How many records of each kind there are.
#[derive(Clone, Copy)]
struct Counted {
    units: u32,
    functions: u32,
    roots: u32,
    types: u32,
}

/// The four counts, and the bytes after them.
#[tactic(auto, unfolding(pw_module::specs::Reading::counts_at))]
fn counts(total: u64, rest: &[u8]) -> Result<(Counted, &[u8]), DepError>
    requires { length rest.now ≤ total }
    ensures value { ReadsAs (λ x. (counts_of x.0, x.1.now)) result (definition.counts_at total rest.now) }
    ensures shorter { IfOk result (λ x. length x.1.now ≤ length rest.now) }
{
    let (units, rest) = number(total, rest)?;
    let (functions, rest) = number(total, rest)?;
    let (roots, rest) = number(total, rest)?;
    let (types, rest) = number(total, rest)?;
    Ok((
        Counted {
            units,
            functions,
            roots,
            types,
        },
        rest,
    ))
}

/// The functions, which end with the text, and the bytes after them.
#[tactic(auto, unfolding(pw_module::specs::Reading::functions_at))]
fn all_functions(
    alloc: Global,
    frame: Frame,
    units: u32,
    count: u32,
    rest: &[u8],
) -> Result<(Items<FunRec>, &[u8]), DepError>
    requires { length rest.now ≤ frame.total }
    ensures value { ReadsAs (λ x. (x.0, x.1.now)) result (definition.functions_at frame.symbols frame.text units frame.total count rest.now) }
    ensures shorter { IfOk result (λ x. length x.1.now ≤ length rest.now) }
{
    let (functions, last, rest) = functions(alloc, frame, units, count, rest)?;
    match end_fault(frame.text, count, last) {
        Some(fault) => Err(fault),
        None => Ok((functions, rest)),
    }
}

/// What follows the version, as a table, and the bytes after it.
#[tactic(auto, unfolding(pw_module::specs::Reading::records_at))]
fn records(alloc: Global, frame: Frame, rest: &[u8]) -> Result<(DepTable, &[u8]), DepError>
    requires { length rest.now ≤ frame.total }
    ensures value { ReadsAs (λ x. (x.0, x.1.now)) result (definition.records_at frame.symbols frame.text frame.total rest.now) }
    ensures shorter { IfOk result (λ x. length x.1.now ≤ length rest.now) }
{
    let (counts, rest) = counts(frame.total, rest)?;
    let (units, rest) = units(alloc, frame.total, counts.units, rest)?;
    let (funs, rest) = all_functions(alloc, frame, counts.units, counts.functions, rest)?;
    let (roots, rest) = roots(alloc, frame, counts.roots, rest)?;
    let (types, _, rest) = types(alloc, frame, counts.types, rest)?;
    Ok((
        DepTable {
            version: VERSION,
            units,
            funs,
            roots,
            types,
        },
        rest,
    ))
}

/// The table whose version stands first, and the bytes after it.
#[tactic(auto, unfolding(pw_module::specs::Reading::started, pw_module::specs::Reading::versioned))]
fn started(alloc: Global, frame: Frame, bytes: &[u8]) -> Result<(DepTable, &[u8]), DepError>
    requires { length bytes.now ≤ frame.total }
    ensures value { ReadsAs (λ x. (x.0, x.1.now)) result (definition.started frame.symbols frame.text frame.total bytes.now) }
    ensures shorter { IfOk result (λ x. length x.1.now ≤ length bytes.now) }
{
    let (version, rest) = number(frame.total, bytes)?;
    if version != VERSION {
        return Err(DepError::Version(version));
    }
    records(alloc, frame, rest)
}

/// The table that all of the bytes are.
#[tactic(auto, unfolding(pw_module::specs::Reading::table_at))]
fn whole(alloc: Global, bytes: &[u8], symbols: u32, text: u64) -> Result<DepTable, DepError>
    ensures { ReadsAs (λ t. t) result (table_at symbols text bytes.now) }
{
    let total = bytes.len() as u64;
    let (table, rest) = started(
        alloc,
        Frame {
            total,
            symbols,
            text,
        },
        bytes,
    )?;
    if !rest.is_empty() {
        return Err(DepError::Trailing(total - rest.len() as u64));
    }
    Ok(table)
}

/// The dependency table of version 1 that the bytes are, for a file of so many symbols and so many bytes of text.
///
/// The refusal is the first fault from the first byte to the last: `Short` where a field or a string passes the end; `Version`
/// after the first field; after a unit `BadName`; after a function `BadIndex`, `Overlap`, `BadRange`, and after the last one
/// `BadRange` where it does not end with the text; after a root `BadIndex`; after a type `BadIndex`, `BadType`; at the end
/// `Trailing`.
/// `NoMemory` may come at any time, and no count takes more memory than the bytes left can fill.
pub fn read(alloc: Global, bytes: &[u8], symbols: u32, text: u64) -> Result<DepTable, DepError>
    // What is read is an allowed table, and the bytes are its bytes.
    ensures found { IfOk result (λ t. ReadsTable symbols text bytes.now t) }
    // The bytes of an allowed table are read as that table, unless memory runs out.
    ensures only { (t : DepTable) → ReadsTable symbols text bytes.now t → ReadsAs (λ x. x) result (Ok t) }
    // Which fault it is.
    ensures exact { ReadsAs (λ x. x) result (table_at symbols text bytes.now) }
{
    whole(alloc, bytes, symbols, text)
}
