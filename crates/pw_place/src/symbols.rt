//! The symbols of a module.
ghost use Rattle.std.specs.Prelude.{◌≡◌, ◌++◌, Some, not, map, filter, codes, IfOk, OnOk};
ghost use Rattle.std.specs.List.{enumerate_from, AllByRecursion};
ghost use Rattle.pw_code.specs.Soundness.{IsSound};
ghost use Rattle.pw_place.specs.Symbols as definition;
ghost use Rattle.pw_place.specs.Steps.ExternalSymbols as external;

use crate::definitions::defined_symbols;
use crate::name_kinds::name_kinds;
use crate::places::Places;
use crate::sizes::entry_bytes;
use pw_base::{Kind, Name, NoMemory, TypeText};
use pw_module::{SymKind, Symbol};
use pw_tree::Ext;
use sqlite_items::Items;
use std::alloc::Global;

/// The name of a program's entry.
fn entry_name(alloc: Global) -> Result<Name, NoMemory>
    ensures { IfOk result (λ name. name ≡ codes "_start") }
{
    match Name::from_bytes(alloc, b"_start")? {
        Some(name) => Ok(name),
        None => unreachable!(),
    }
}

/// The text of the entry's type.
fn entry_text(alloc: Global) -> Result<TypeText, NoMemory>
    ensures { IfOk result (λ text. text ≡ codes "v()") }
{
    match TypeText::read(alloc, b"v()")? {
        Some(text) => Ok(text),
        None => unreachable!(),
    }
}

/// Appends the symbol of a program's entry.
fn push_entry(alloc: Global, kind: Kind, to: &mut Items<Option<Symbol>>) -> Result<(), NoMemory>
    ensures { OnOk result (to.new ≡ to.old ++ map Some (definition.entry_symbols kind)) }
{
    match kind {
        Kind::Program => {
            to.push(Some(Symbol {
                name: entry_name(alloc)?,
                global: false,
                kind: SymKind::Fun(0, entry_bytes(kind)),
                text: entry_text(alloc)?,
            }))?;
            Ok(())
        }
        Kind::Library => Ok(()),
    }
}

/// An equal symbol.
fn copy(alloc: Global, s: &Symbol) -> Result<Symbol, NoMemory>
    ensures { IfOk result (λ copy. copy ≡ s.now) }
{
    Ok(Symbol {
        name: s.name.copy(alloc)?,
        global: s.global,
        kind: s.kind,
        text: s.text.copy(alloc)?,
    })
}

/// Appends the symbols of static definitions.
fn push_static(
    alloc: Global,
    defined: &[Symbol],
    to: &mut Items<Option<Symbol>>,
) -> Result<(), NoMemory>
    ensures { OnOk result (to.new ≡ to.old ++ map Some (filter (λ s. not s.global) defined.now)) }
{
    for s in defined {
        if !s.global {
            to.push(Some(copy(alloc, s)?))?;
        }
    }
    Ok(())
}

/// What the name of this number stands for.
fn kind_at(kinds: &[Option<SymKind>], number: usize) -> SymKind
    ensures { result ≡ external.kind_at kinds.now number }
{
    match kinds.get(number) {
        Some(Some(kind)) => *kind,
        _ => SymKind::Undefined,
    }
}

/// Appends the symbols of external names that stand for these.
fn push_names(
    alloc: Global,
    names: &[Ext],
    kinds: &[Option<SymKind>],
    to: &mut Items<Option<Symbol>>,
) -> Result<(), NoMemory>
    ensures { OnOk result (to.new ≡ to.old ++ map (λ n. Some (external.symbol_of_name kinds.now n)) (enumerate_from 0 names.now)) }
{
    for (number, n) in names.iter().enumerate() {
        to.push(Some(Symbol {
            name: n.name.copy(alloc)?,
            global: true,
            kind: kind_at(kinds, number),
            text: n.text.copy(alloc)?,
        }))?;
    }
    Ok(())
}

/// The symbols of a module, by number; the first is none.
pub(crate) fn symbols(alloc: Global, places: &Places) -> Result<Items<Option<Symbol>>, NoMemory>
    requires { AllByRecursion IsSound places.now.objects.now }
    ensures { IfOk result (λ found. found ≡ definition.symbols places.now.kind places.now.objects.now) }
{
    let defined = defined_symbols(alloc, places)?;
    let kinds = name_kinds(alloc, &places.externals, defined.as_slice())?;
    let mut symbols = Items::new(alloc);
    symbols.push(None)?;
    push_entry(alloc, places.kind, &mut symbols)?;
    push_static(alloc, defined.as_slice(), &mut symbols)?;
    push_names(
        alloc,
        places.externals.entries.as_slice(),
        kinds.as_slice(),
        &mut symbols,
    )?;
    Ok(symbols)
}
