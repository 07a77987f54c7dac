//! The relocations of a module.
ghost use Rattle.std.specs.Prelude.{◌≡◌, ℕ, List, ◌++◌, map, Some, slice_get, IfOk, OnOk};
ghost use Rattle.std.specs.List.{enumerate_from, AllByRecursion};
ghost use Rattle.pw_place.specs.Places as places;
ghost use Rattle.pw_place.specs.Symbols.{external_number};
ghost use Rattle.pw_place.specs.Contents as contents;
ghost use Rattle.pw_place.specs.Steps.PlaceLists.{IsPlacedRef};
ghost use Rattle.pw_place.specs.Steps.PointerPlaces.{pointer_of, IsPlacedPointer};

use crate::pointers::PointerPlace;
use crate::symbol_numbers::SymbolNumbers;
use pw_base::{Limits, NoMemory};
use pw_module::{Reloc, RelocKind};
use pw_tree::Ref;
use sqlite_items::Items;
use std::alloc::Global;

/// The bytes of a slot.
const SLOT_BYTES: u64 = 8;

/// The number of the symbol whose address the slot of this number holds.
fn slot_symbol(numbers: &SymbolNumbers, n: usize) -> u32
    ensures { (name : List ℕ) → slice_get (places.slot_names numbers.now.places.now.kind numbers.now.places.now.objects.now) n ≡ Some name → result ≡ external_number numbers.now.places.now.kind numbers.now.places.now.objects.now name }
{
    match numbers.places.slots.get(n) {
        Some(name) => numbers.external(name),
        None => 0,
    }
}

/// Appends the relocations of the slots.
fn push_slots(to: &mut Items<Reloc>, numbers: &SymbolNumbers) -> Result<(), NoMemory>
    ensures { OnOk result (to.new ≡ to.old ++ map (contents.slot_relocation numbers.now.places.now.kind numbers.now.places.now.objects.now) (enumerate_from 0 (places.slot_names numbers.now.places.now.kind numbers.now.places.now.objects.now))) }
{
    for n in 0..numbers.places.slots.len() {
        to.push(Reloc {
            offset: Limits::DATA_OFFSET + SLOT_BYTES * n as u64,
            kind: RelocKind::Sym(slot_symbol(numbers, n)),
        })?;
    }
    Ok(())
}

/// What is put into a pointer to a function of a unit.
fn relocation_to(numbers: &SymbolNumbers, unit: usize, to: &Ref) -> RelocKind
    requires { IsPlacedRef numbers.now.places.now.objects.now unit to.now }
    ensures { result ≡ contents.relocation_to numbers.now.places.now.kind numbers.now.places.now.objects.now unit to.now }
{
    match to {
        Ref::Global(name) => RelocKind::Sym(numbers.external(name.bytes())),
        Ref::LocalFun(_) => RelocKind::Base(u64::from(numbers.places.target(unit, to))),
        Ref::LocalVar(_) => RelocKind::Base(u64::from(numbers.places.target(unit, to))),
    }
}

/// The relocation of a pointer.
fn pointer_relocation(numbers: &SymbolNumbers, pointer: &PointerPlace) -> Reloc
    requires { IsPlacedPointer numbers.now.places.now.objects.now (pointer_of pointer.now) }
    ensures { result ≡ contents.pointer_relocation numbers.now.places.now.kind numbers.now.places.now.objects.now (pointer_of pointer.now) }
{
    Reloc {
        offset: Limits::DATA_OFFSET + u64::from(pointer.at),
        kind: relocation_to(numbers, pointer.unit, &pointer.function),
    }
}

/// Appends the relocations of pointers.
fn push_pointers(
    to: &mut Items<Reloc>,
    numbers: &SymbolNumbers,
    pointers: &[PointerPlace],
) -> Result<(), NoMemory>
    requires { AllByRecursion (IsPlacedPointer numbers.now.places.now.objects.now) (map pointer_of pointers.now) }
    ensures { OnOk result (to.new ≡ to.old ++ map (contents.pointer_relocation numbers.now.places.now.kind numbers.now.places.now.objects.now) (map pointer_of pointers.now)) }
{
    for pointer in pointers {
        to.push(pointer_relocation(numbers, pointer))?;
    }
    Ok(())
}

/// The relocations of a module, by ascending place: of its slots, then of its pointers.
pub(crate) fn relocations(
    alloc: Global,
    numbers: &SymbolNumbers,
    pointers: &[PointerPlace],
) -> Result<Items<Reloc>, NoMemory>
    requires pointers { map pointer_of pointers.now ≡ contents.pointers numbers.now.places.now.kind numbers.now.places.now.objects.now }
    requires placed { AllByRecursion (IsPlacedPointer numbers.now.places.now.objects.now) (map pointer_of pointers.now) }
    ensures { IfOk result (λ relocs. relocs ≡ contents.relocations numbers.now.places.now.kind numbers.now.places.now.objects.now) }
{
    let mut relocs = Items::new(alloc);
    push_slots(&mut relocs, numbers)?;
    push_pointers(&mut relocs, numbers, pointers)?;
    Ok(relocs)
}
