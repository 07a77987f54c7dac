//! The dependency table of a module.
ghost use Rattle.std.specs.Prelude.{◌≡◌, ◌++◌, ◌<◌, ◌^◌, Some, map, flat_map, length, slice_get, IfOk, OnOk};
ghost use Rattle.std.specs.List.{enumerate_from, AllByRecursion};
ghost use Rattle.pw_code.specs.Soundness.{IsSound};
ghost use Rattle.pw_place.specs.Places.{functions_in};
ghost use Rattle.pw_place.specs.Symbols as definition;
ghost use Rattle.pw_place.specs.Contents as contents;
ghost use Rattle.pw_place.specs.Tables as tables;
ghost use Rattle.pw_place.specs.Steps.PlaceLists.{IsPlacedRef};
ghost use Rattle.pw_place.specs.Steps.PointerPlaces.{pointer_of, IsPlacedPointer};
ghost use Rattle.pw_place.specs.Steps.PlacedFunctions.{HasPlacedDependencies};

use crate::pointers::PointerPlace;
use crate::sizes::{entry_bytes, function_bytes};
use crate::symbol_numbers::SymbolNumbers;
use pw_base::{Kind, Name, NoMemory};
use pw_code::{FunCode, Object};
use pw_module::{DepTable, FunRec, RootRec, Symbol, TypeRec};
use pw_tree::Ref;
use sqlite_items::Items;
use std::alloc::Global;

/// The version of the table.
const VERSION: u32 = 1;

/// The number of the entry's symbol.
const ENTRY: u32 = 1;

/// The numbers of the symbols that references of a unit mean.
fn numbers_of(
    alloc: Global,
    numbers: &SymbolNumbers,
    unit: usize,
    references: &[Ref],
) -> Result<Items<u32>, NoMemory>
    requires { AllByRecursion (IsPlacedRef numbers.now.places.now.objects.now unit) references.now }
    ensures { IfOk result (λ found. found ≡ map (definition.symbol_number numbers.now.places.now.kind numbers.now.places.now.objects.now unit) references.now) }
{
    let mut found = Items::new(alloc);
    for to in references {
        found.push(numbers.of(unit, to))?;
    }
    Ok(found)
}

/// The number of the symbol of a unit's function.
fn number_of_function(numbers: &SymbolNumbers, unit: usize, i: usize, f: &FunCode) -> u32
    requires { slice_get (functions_in numbers.now.places.now.objects.now unit) i ≡ Some f.now }
    ensures { result ≡ definition.symbol_number numbers.now.places.now.kind numbers.now.places.now.objects.now unit (definition.ref_of_function i f.now) }
{
    if f.global {
        numbers.external(f.name.bytes())
    } else {
        numbers.static_function(unit, i)
    }
}

/// The record of a unit's function.
fn function_record(
    alloc: Global,
    numbers: &SymbolNumbers,
    unit: usize,
    i: usize,
    f: &FunCode,
) -> Result<FunRec, NoMemory>
    requires function { slice_get (functions_in numbers.now.places.now.objects.now unit) i ≡ Some f.now }
    requires unit { unit < 2 ^ 32 }
    requires dependencies { HasPlacedDependencies numbers.now.places.now.objects.now unit f.now }
    ensures { IfOk result (λ r. r ≡ tables.function_record numbers.now.places.now.kind numbers.now.places.now.objects.now unit (i, f.now)) }
{
    Ok(FunRec {
        sym: number_of_function(numbers, unit, i, f),
        unit: Some(unit as u32),
        start: numbers.places.function_start(unit, i),
        size: function_bytes(f) as u32,
        deps: numbers_of(alloc, numbers, unit, f.deps.as_slice())?,
    })
}

/// Appends the records of a unit's functions.
fn push_unit(
    alloc: Global,
    numbers: &SymbolNumbers,
    to: &mut Items<FunRec>,
    unit: usize,
    functions: &[FunCode],
) -> Result<(), NoMemory>
    requires functions { functions_in numbers.now.places.now.objects.now unit ≡ functions.now }
    requires unit { unit < 2 ^ 32 }
    requires dependencies { AllByRecursion (HasPlacedDependencies numbers.now.places.now.objects.now unit) functions.now }
    ensures { OnOk result (to.new ≡ to.old ++ map (tables.function_record numbers.now.places.now.kind numbers.now.places.now.objects.now unit) (enumerate_from 0 functions.now)) }
{
    for (i, f) in functions.iter().enumerate() {
        to.push(function_record(alloc, numbers, unit, i, f)?)?;
    }
    Ok(())
}

/// Appends the record of a program's entry, which depends on `main`.
fn push_entry(
    alloc: Global,
    numbers: &SymbolNumbers,
    to: &mut Items<FunRec>,
) -> Result<(), NoMemory>
    ensures { OnOk result (to.new ≡ to.old ++ tables.entry_records numbers.now.places.now.kind numbers.now.places.now.objects.now) }
{
    match numbers.places.kind {
        Kind::Program => {
            let mut deps = Items::new(alloc);
            deps.push(numbers.external(b"main"))?;
            to.push(FunRec {
                sym: ENTRY,
                unit: None,
                start: 0,
                size: entry_bytes(Kind::Program) as u32,
                deps,
            })?;
            Ok(())
        }
        Kind::Library => Ok(()),
    }
}

/// The records of functions, in order of the text.
fn function_records(alloc: Global, numbers: &SymbolNumbers) -> Result<Items<FunRec>, NoMemory>
    requires { AllByRecursion IsSound numbers.now.places.now.objects.now }
    ensures { IfOk result (λ found. found ≡ tables.function_records numbers.now.places.now.kind numbers.now.places.now.objects.now) }
{
    let mut found = Items::new(alloc);
    push_entry(alloc, numbers, &mut found)?;
    for (unit, object) in numbers.places.objects.iter().enumerate() {
        push_unit(alloc, numbers, &mut found, unit, object.funs.as_slice())?;
    }
    Ok(found)
}

/// The record of a pointer: the variable that it stands in, and the function that it means.
fn root_record(numbers: &SymbolNumbers, p: &PointerPlace) -> RootRec
    requires { IsPlacedPointer numbers.now.places.now.objects.now (pointer_of p.now) }
    ensures { result ≡ tables.root_record numbers.now.places.now.kind numbers.now.places.now.objects.now (pointer_of p.now) }
{
    RootRec {
        var: numbers.of(p.unit, &p.variable),
        fun: numbers.of(p.unit, &p.function),
    }
}

/// The records of pointers.
fn root_records(
    alloc: Global,
    numbers: &SymbolNumbers,
    pointers: &[PointerPlace],
) -> Result<Items<RootRec>, NoMemory>
    requires { AllByRecursion (IsPlacedPointer numbers.now.places.now.objects.now) (map pointer_of pointers.now) }
    ensures { IfOk result (λ roots. roots ≡ map (tables.root_record numbers.now.places.now.kind numbers.now.places.now.objects.now) (map pointer_of pointers.now)) }
{
    let mut roots = Items::new(alloc);
    for p in pointers {
        roots.push(root_record(numbers, p))?;
    }
    Ok(roots)
}

/// Appends the type record of the symbol of a number; the null symbol has none.
fn push_type(
    alloc: Global,
    to: &mut Items<TypeRec>,
    n: usize,
    symbol: &Option<Symbol>,
) -> Result<(), NoMemory>
    requires { n < 2 ^ 32 }
    ensures { OnOk result (to.new ≡ to.old ++ tables.type_records_of (n, symbol.now)) }
{
    match symbol {
        None => Ok(()),
        Some(s) => {
            to.push(TypeRec {
                sym: n as u32,
                text: s.text.copy(alloc)?,
            })?;
            Ok(())
        }
    }
}

/// The records of types, in order of the symbols.
fn type_records(alloc: Global, symbols: &[Option<Symbol>]) -> Result<Items<TypeRec>, NoMemory>
    requires { length symbols.now < 2 ^ 32 }
    ensures { IfOk result (λ types. types ≡ flat_map tables.type_records_of (enumerate_from 0 symbols.now)) }
{
    let mut types = Items::new(alloc);
    for (n, symbol) in symbols.iter().enumerate() {
        push_type(alloc, &mut types, n, symbol)?;
    }
    Ok(types)
}

/// The names of the units.
fn unit_names(alloc: Global, objects: &[Object]) -> Result<Items<Name>, NoMemory>
    ensures { IfOk result (λ names. names ≡ map (λ o. o.unit) objects.now) }
{
    let mut names = Items::new(alloc);
    for object in objects {
        names.push(object.unit.copy(alloc)?)?;
    }
    Ok(names)
}

/// The dependency table of a module with these pointers and symbols.
pub(crate) fn table(
    alloc: Global,
    numbers: &SymbolNumbers,
    pointers: &[PointerPlace],
    symbols: &[Option<Symbol>],
) -> Result<DepTable, NoMemory>
    requires sound { AllByRecursion IsSound numbers.now.places.now.objects.now }
    requires pointers { map pointer_of pointers.now ≡ contents.pointers numbers.now.places.now.kind numbers.now.places.now.objects.now }
    requires placed { AllByRecursion (IsPlacedPointer numbers.now.places.now.objects.now) (map pointer_of pointers.now) }
    requires symbols { symbols.now ≡ definition.symbols numbers.now.places.now.kind numbers.now.places.now.objects.now }
    ensures { IfOk result (λ t. t ≡ tables.table numbers.now.places.now.kind numbers.now.places.now.objects.now) }
{
    let units = unit_names(alloc, numbers.places.objects)?;
    let funs = function_records(alloc, numbers)?;
    let roots = root_records(alloc, numbers, pointers)?;
    let types = type_records(alloc, symbols)?;
    Ok(DepTable {
        version: VERSION,
        units,
        funs,
        roots,
        types,
    })
}
