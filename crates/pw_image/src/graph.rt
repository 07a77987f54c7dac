//! The graph of a dependency table.
ghost use Rattle.std.specs.Prelude.{◌≡◌, ◌<◌, ◌^◌, ℕ, length, map, nat_eq, IfOk};
ghost use Rattle.std.specs.List.{filter_map};
ghost use Rattle.indexmap.specs.IndexMap.{get};
ghost use Rattle.pw_close.specs.Graphs.{IsGraph};
ghost use Rattle.pw_image.specs.Graphs.{IsGraphOf};
ghost use Rattle.pw_image.specs.Records.{record_of, edges_of, roots_of};

use indexmap::IndexMap;
use pw_base::NoMemory;
use pw_close::Graph;
use pw_module::{DepTable, FunRec, RootRec};
use std::alloc::Global;
use std::iter::once;

/// The number of the entry's record.
const ENTRY: u32 = 0;

/// Records of functions, and the number of each symbol's record.
#[derive(Drop)]
struct RecordNumbers<'a> {
    records: &'a [FunRec],
    /// A symbol that several records have means the first of them.
    by_symbol: IndexMap<u32, u32>,
    ghost numbered: { (symbol : ℕ) → get nat_eq by_symbol symbol ≡ record_of records.now symbol },
}

impl<'a> RecordNumbers<'a> {
    /// The number of a symbol's record, where it has one.
    fn of(&self, symbol: u32) -> Option<u32>
        ensures { result ≡ record_of self.now.records.now symbol }
    {
        self.by_symbol.get(&symbol).copied()
    }
}

/// Numbers records by their symbols.
fn number_records<'a>(alloc: Global, records: &'a [FunRec]) -> Result<RecordNumbers<'a>, NoMemory>
    requires { length records.now < 2 ^ 32 }
    ensures { IfOk result (λ numbers. numbers.records.now ≡ records.now) }
{
    let mut by_symbol = IndexMap::new(alloc);
    for (number, record) in records.iter().enumerate() {
        by_symbol
            .entry(record.sym)
            .map_err(|_| NoMemory)?
            .or_insert(number as u32);
    }
    Ok(RecordNumbers { records, by_symbol })
}

/// The numbers of the records that these symbols have.
fn numbers_of(alloc: Global, numbers: &RecordNumbers, symbols: &[u32]) -> Result<Vec<u32>, NoMemory>
    ensures { IfOk result (λ row.
        row.items ≡ filter_map (record_of numbers.now.records.now) symbols.now) }
{
    let row = symbols
        .iter()
        .filter_map(|symbol| numbers.of(*symbol))
        .collect(alloc)?;
    Ok(row)
}

/// For each record, the numbers of those on which it depends.
fn edges(alloc: Global, numbers: &RecordNumbers) -> Result<Vec<Vec<u32>>, NoMemory>
    ensures { IfOk result (λ rows.
        map (λ row. row.items) rows.items ≡ edges_of numbers.now.records.now) }
{
    let mut rows = Vec::new(alloc);
    for record in numbers.records {
        let row = numbers_of(alloc, numbers, record.deps.as_slice())?;
        rows.push(row).map_err(|_| NoMemory)?;
    }
    Ok(rows)
}

/// The numbers of the roots' records, the entry's first.
fn roots(alloc: Global, numbers: &RecordNumbers, pointers: &[RootRec]) -> Result<Vec<u32>, NoMemory>
    ensures { IfOk result (λ roots. roots.items ≡ roots_of numbers.now.records.now pointers.now) }
{
    let named = pointers
        .iter()
        .map(|pointer| pointer.fun)
        .filter_map(|symbol| numbers.of(symbol));
    let roots = once(ENTRY).chain(named).collect(alloc)?;
    Ok(roots)
}

/// The graph of a table: a function for each of its records, with the records on which it depends, and the roots.
///
/// It takes time in proportion to the table.
pub fn graph_of(alloc: Global, table: &DepTable) -> Result<Graph, NoMemory>
    requires some { 0 < length table.now.funs }
    requires few { length table.now.funs < 2 ^ 32 }
    ensures graph { IfOk result (IsGraphOf table.now) }
    ensures whole { IfOk result IsGraph }
{
    let numbers = number_records(alloc, table.funs.as_slice())?;
    let edges = edges(alloc, &numbers)?;
    let roots = roots(alloc, &numbers, table.roots.as_slice())?;
    Ok(Graph {
        funs: table.funs.len() as u32,
        edges,
        roots,
    })
}
