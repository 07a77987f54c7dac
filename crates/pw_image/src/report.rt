//! The rows of the report.
ghost use Rattle.std.specs.Prelude.{◌≡◌, None, slice_get, slice_index_or, option_and_then, IfOk};
ghost use Rattle.std.specs.List.{All};
ghost use Rattle.std.specs.Option.{option_map_or};
ghost use Rattle.pw_close.specs.Closure.{parent_of};
ghost use Rattle.pw_image.specs.Reported as reported;
ghost use Rattle.pw_image.specs.Reported.{HasSymbol, rows_of};

use pw_base::{Name, NoMemory};
use pw_close::Levels;
use pw_module::{By, FunRec, KeptBy, KeptRow, Symbol};
use pw_place::Placed;
use sqlite_items::Items;
use std::alloc::Global;

/// The number that a list has for a function, if it has one.
fn number_at(numbers: &[Option<u32>], n: usize) -> Option<u32>
    ensures { result ≡ slice_index_or numbers.now n None }
{
    numbers.get(n).copied().flatten()
}

/// What leads to the function of a record, which has this level: the function of record 0 is the
/// entry.
fn led_by(levels: &Levels, n: usize, level: u32) -> By
    ensures { result ≡
        reported.led_by n level (option_map_or (λ p. p) (parent_of levels.now n) 0) }
{
    if level > 0 {
        By::From(number_at(&levels.parent, n).unwrap_or(0))
    } else if n == 0 {
        By::Entry
    } else {
        By::Pointer
    }
}

/// Why the function of a record is kept, if it has a level.
fn kept_by(levels: &Levels, n: usize) -> Option<KeptBy>
    ensures { result ≡ reported.kept_by levels.now n }
{
    let level = number_at(&levels.level, n)?;
    Some(KeptBy {
        level,
        by: led_by(levels, n, level),
    })
}

/// The name of a record's unit, if it belongs to one of these.
fn unit_name(alloc: Global, units: &[Name], r: &FunRec) -> Result<Option<Name>, NoMemory>
    ensures { IfOk result (λ name. name ≡ option_and_then (λ u. slice_get units.now u) r.now.unit) }
{
    if let Some(u) = r.unit {
        if let Some(name) = units.get(u as usize) {
            return Ok(Some(name.copy(alloc)?));
        }
    }
    Ok(None)
}

/// The name of a record's symbol.
fn symbol_name(alloc: Global, symbols: &[Option<Symbol>], r: &FunRec) -> Result<Name, NoMemory>
    requires { HasSymbol symbols.now r.now }
    ensures { IfOk result (λ name. name ≡ reported.symbol_name symbols.now r.now.sym) }
{
    match symbols.get(r.sym as usize) {
        Some(Some(s)) => s.name.copy(alloc),
        _ => unreachable!(),
    }
}

/// The row of the record of a number.
fn row(
    alloc: Global,
    module: &Name,
    placed: &Placed,
    levels: &Levels,
    n: usize,
    r: &FunRec,
) -> Result<KeptRow, NoMemory>
    requires { HasSymbol placed.now.symbols r.now }
    ensures { IfOk result (λ row. row ≡
        reported.row_of module.now placed.now levels.now (n, r.now)) }
{
    Ok(KeptRow {
        module: module.copy(alloc)?,
        unit: unit_name(alloc, placed.deps.units.as_slice(), r)?,
        name: symbol_name(alloc, placed.symbols.as_slice(), r)?,
        bytes: r.size,
        kept: kept_by(levels, n),
    })
}

/// The rows of a module's functions, in order of the text: what each is, and why it is kept, by its
/// level.
pub fn rows(
    alloc: Global,
    module: &Name,
    placed: &Placed,
    levels: &Levels,
) -> Result<Items<KeptRow>, NoMemory>
    requires { All (HasSymbol placed.now.symbols) placed.now.deps.funs }
    ensures { IfOk result (λ rows. rows ≡ rows_of module.now placed.now levels.now) }
{
    let mut rows = Items::new(alloc);
    for (n, r) in placed.deps.funs.as_slice().iter().enumerate() {
        rows.push(row(alloc, module, placed, levels, n, r)?)?;
    }
    Ok(rows)
}
