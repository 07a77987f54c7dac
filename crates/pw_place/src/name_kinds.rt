//! What the external names of a module stand for.
ghost use Rattle.std.specs.Prelude.{◌≡◌, ◌<◌, ◌^◌, length, map, replicate, None, bytes_eq, IfOk};
ghost use Rattle.std.specs.List.{IsDistinct};
ghost use Rattle.pw_place.specs.Steps.NameKinds.{kinds_among, is_unknown_at, met_at, symbol_met};

use crate::externals::Externals;
use pw_base::NoMemory;
use pw_module::{SymKind, Symbol};
use sqlite_items::Items;
use std::alloc::Global;

/// Nothing is known yet of so many names.
fn unknown(alloc: Global, count: usize) -> Result<Items<Option<SymKind>>, NoMemory>
    ensures { IfOk result (λ kinds. kinds ≡ replicate count None) }
{
    let mut kinds = Items::new(alloc);
    for _name in 0..count {
        kinds.push(None)?;
    }
    Ok(kinds)
}

/// Whether there is a name of this number, and nothing is known of it yet.
fn is_unknown(kinds: &[Option<SymKind>], number: usize) -> bool
    ensures { result ≡ is_unknown_at kinds.now number }
{
    match kinds.get(number) {
        Some(kind) => kind.is_none(),
        None => false,
    }
}

/// A definition is met of the name of this number: the first one counts.
fn meet(kinds: &mut Items<Option<SymKind>>, number: usize, kind: SymKind)
    ensures { kinds.new ≡ met_at kinds.old number kind }
{
    if is_unknown(kinds.as_slice(), number) {
        kinds.set(number, Some(kind));
    }
}

/// The symbol of a definition is met.
fn meet_symbol(externals: &Externals, kinds: &mut Items<Option<SymKind>>, s: &Symbol)
    requires { length externals.now.entries < 2 ^ 32 }
    ensures { kinds.new ≡ symbol_met externals.now.entries kinds.old s.now }
{
    if s.global {
        meet(kinds, externals.number(s.name.bytes()) as usize, s.kind);
    }
}

/// What each external name stands for among the symbols of all definitions, if it is defined there.
pub(crate) fn name_kinds(
    alloc: Global,
    externals: &Externals,
    defined: &[Symbol],
) -> Result<Items<Option<SymKind>>, NoMemory>
    requires few { length externals.now.entries < 2 ^ 32 }
    requires differ { IsDistinct bytes_eq (map (λ n. n.name) externals.now.entries) }
    ensures { IfOk result (λ kinds. kinds ≡ kinds_among defined.now externals.now.entries) }
{
    let mut kinds = unknown(alloc, externals.entries.len())?;
    for s in defined {
        meet_symbol(externals, &mut kinds, s);
    }
    Ok(kinds)
}
