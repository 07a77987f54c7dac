//! Objects are merged into the parts of a module.
ghost use Rattle.std.specs.Prelude.{◌≡◌, Some, None, IfOk, slice_get};
ghost use Rattle.std.specs.List.{AllByRecursion};
ghost use Rattle.pw_code.specs.Soundness.{IsSound};
ghost use Rattle.pw_place.specs.Merging.{Merges, placed_of};
ghost use Rattle.pw_place.specs.Names.{external_names};
ghost use Rattle.pw_place.specs.Places as definitions;
ghost use Rattle.pw_place.specs.Refusals.{link_fault};
ghost use Rattle.pw_place.specs.Steps.Passing.{Passes};

use crate::data::{data_bytes, data_zeros};
use crate::externals::{Externals, find_externals};
use crate::link_error::LinkError;
use crate::placed::Placed;
use crate::places::{Places, place_objects};
use crate::pointers::pointers;
use crate::records::table;
use crate::refusals::check;
use crate::relocations::relocations;
use crate::symbol_numbers::number_symbols;
use crate::symbols::symbols;
use crate::text::text_words;
use pw_base::{Kind, Name, NoMemory};
use pw_code::Object;
use sqlite_items::Items;
use std::alloc::Global;

/// The name of a slot. Every slot has the name of a reference, so none is refused for its bytes.
fn slot_name(alloc: Global, places: &Places, n: usize) -> Result<Name, NoMemory>
    ensures { IfOk result (λ name. slice_get places.now.slots n ≡ Some name) }
{
    match places.slots.get(n) {
        Some(bytes) => match Name::from_bytes(alloc, bytes)? {
            Some(name) => Ok(name),
            None => Err(NoMemory),
        },
        None => Err(NoMemory),
    }
}

/// The names that have slots.
fn slot_names(alloc: Global, places: &Places) -> Result<Items<Name>, NoMemory>
    ensures { IfOk result (λ names. names ≡ definitions.slot_names places.now.kind places.now.objects.now) }
{
    let mut names = Items::new(alloc);
    for n in 0..places.slots.len() {
        names.push(slot_name(alloc, places, n)?)?;
    }
    Ok(names)
}

/// The parts of the module of placed objects.
fn parts(alloc: Global, places: &Places) -> Result<Placed, NoMemory>
    requires { AllByRecursion IsSound places.now.objects.now }
    ensures { IfOk result (λ placed. placed ≡ placed_of places.now.kind places.now.objects.now) }
{
    let numbers = number_symbols(alloc, places)?;
    let pointers = pointers(alloc, places)?;
    let symbols = symbols(alloc, places)?;
    let deps = table(alloc, &numbers, pointers.as_slice(), symbols.as_slice())?;
    let relocs = relocations(alloc, &numbers, pointers.as_slice())?;
    let text = text_words(alloc, places)?;
    let bytes = data_bytes(alloc, places)?;
    let got = slot_names(alloc, places)?;
    Ok(Placed {
        text,
        got,
        bytes,
        zeros: data_zeros(places),
        symbols,
        relocs,
        deps,
    })
}

/// The external names of objects that make a module; else the first fault.
fn checked(alloc: Global, kind: Kind, objects: &[Object]) -> Result<Externals, LinkError>
    ensures fault { Passes (link_fault kind objects.now) result }
    ensures names { IfOk result (λ found. found.entries ≡ external_names objects.now) }
{
    let externals = find_externals(alloc, objects)?;
    check(alloc, kind, objects, &externals)?;
    Ok(externals)
}

/// The parts of the module that objects without a fault make.
fn placed(
    alloc: Global,
    kind: Kind,
    objects: &[Object],
    externals: Externals,
) -> Result<Placed, NoMemory>
    requires sound { AllByRecursion IsSound objects.now }
    requires right { link_fault kind objects.now ≡ None }
    requires names { externals.entries ≡ external_names objects.now }
    ensures { IfOk result (λ placed. placed ≡ placed_of kind objects.now) }
{
    let places = place_objects(alloc, kind, objects, externals)?;
    parts(alloc, &places)
}

/// The parts of the module that objects merge into, in their order; a program's entry stands first.
///
/// Refusals, the first of these: too many units, external names, elements of variables or bytes of text; the first name in
/// order of appearance that is defined twice; the first that has two types; of a program, no `main`, or one of another type;
/// and want of memory, at any place.
pub fn merge(alloc: Global, objects: &Items<Object>, kind: Kind) -> Result<Placed, LinkError>
    requires { AllByRecursion IsSound objects.now }
    ensures { Merges kind objects.now result }
{
    let externals = checked(alloc, kind, objects.as_slice())?;
    Ok(placed(alloc, kind, objects.as_slice(), externals)?)
}
