//! The pointers in a module's data: the elements of initialisers that name functions.
ghost use Rattle.std.specs.Prelude.{◌≡◌, ◌+◌, ◌*◌, ◌≤◌, ◌<◌, ◌^◌, ◌++◌, Some, length, map, flat_map, slice_get, IfOk, OnOk};
ghost use Rattle.std.specs.List.{enumerate_from, AllByRecursion};
ghost use Rattle.pw_tree.specs.WellTypedUnits.{room};
ghost use Rattle.pw_code.specs.Soundness.{IsSound};
ghost use Rattle.pw_place.specs.Sizes.{doubleword_bytes};
ghost use Rattle.pw_place.specs.Places.{variables_in};
ghost use Rattle.pw_place.specs.Symbols.{ref_of_variable};
ghost use Rattle.pw_place.specs.Contents as contents;
ghost use Rattle.pw_place.specs.Steps.PointerPlaces.{pointer_of, IsPlacedPointer};

use crate::places::Places;
use pw_base::NoMemory;
use pw_code::Object;
use pw_tree::{Init, Ref, TVar};
use sqlite_items::Items;
use std::alloc::Global;

/// The bytes of an element.
const ELEMENT_BYTES: u32 = 8;

/// A pointer: where it stands, and to what.
#[derive(Drop)]
pub(crate) struct PointerPlace {
    /// The number of its unit.
    pub(crate) unit: usize,
    /// The variable that it stands in, as that unit refers to it.
    pub(crate) variable: Ref,
    /// How many bytes after the start of the data.
    pub(crate) at: u32,
    /// The function, as the unit refers to it.
    pub(crate) function: Ref,
}

/// The reference that means a variable of this number.
fn variable_ref(alloc: Global, i: usize, x: &TVar) -> Result<Ref, NoMemory>
    requires { i < 2 ^ 32 }
    ensures { IfOk result (λ to. to ≡ ref_of_variable i x.now) }
{
    if x.global {
        Ok(Ref::Global(x.name.copy(alloc)?))
    } else {
        Ok(Ref::LocalVar(i as u32))
    }
}

/// Appends the pointer that an element of this number is, if any.
fn push_element(
    alloc: Global,
    to: &mut Items<PointerPlace>,
    unit: usize,
    variable: &Ref,
    start: u32,
    j: usize,
    element: &Init,
) -> Result<(), NoMemory>
    requires { start + doubleword_bytes * j < 2 ^ 32 }
    ensures { OnOk result (map pointer_of to.new ≡ map pointer_of to.old ++ contents.pointers_in_element unit variable.now start (j, element.now)) }
{
    match element {
        Init::Num(_) => Ok(()),
        Init::Fun(function) => {
            to.push(PointerPlace {
                unit,
                variable: variable.copy(alloc)?,
                at: start + ELEMENT_BYTES * j as u32,
                function: function.copy(alloc)?,
            })?;
            Ok(())
        }
    }
}

/// Appends the pointers among the values of a variable that starts so many bytes after the start of the data.
fn push_values(
    alloc: Global,
    to: &mut Items<PointerPlace>,
    unit: usize,
    variable: &Ref,
    start: u32,
    values: &[Init],
) -> Result<(), NoMemory>
    requires { start + doubleword_bytes * length values.now < 2 ^ 32 }
    ensures { OnOk result (map pointer_of to.new ≡ map pointer_of to.old ++ flat_map (contents.pointers_in_element unit variable.now start) (enumerate_from 0 values.now)) }
{
    for (j, value) in values.iter().enumerate() {
        push_element(alloc, to, unit, variable, start, j, value)?;
    }
    Ok(())
}

/// Appends the pointers in a variable.
fn push_variable(
    alloc: Global,
    places: &Places,
    to: &mut Items<PointerPlace>,
    unit: usize,
    i: usize,
    x: &TVar,
) -> Result<(), NoMemory>
    requires variable { slice_get (variables_in places.now.objects.now unit) i ≡ Some x.now }
    requires number { i < 2 ^ 32 }
    requires values { length (contents.values_of x.now) ≤ room x.now.count }
    ensures { OnOk result (map pointer_of to.new ≡ map pointer_of to.old ++ contents.pointers_in_variable places.now.kind places.now.objects.now unit (i, x.now)) }
{
    match &x.init {
        Some(values) => {
            let start = places.variable_start(unit, i);
            let variable = variable_ref(alloc, i, x)?;
            push_values(alloc, to, unit, &variable, start, values.as_slice())
        }
        None => Ok(()),
    }
}

/// Appends the pointers in the variables of a unit.
fn push_unit(
    alloc: Global,
    places: &Places,
    to: &mut Items<PointerPlace>,
    unit: usize,
    object: &Object,
) -> Result<(), NoMemory>
    requires unit { slice_get places.now.objects.now unit ≡ Some object.now }
    requires sound { IsSound object.now }
    ensures { OnOk result (map pointer_of to.new ≡ map pointer_of to.old ++ contents.pointers_in_unit places.now.kind places.now.objects.now (unit, object.now)) }
{
    for (i, x) in object.vars.as_slice().iter().enumerate() {
        push_variable(alloc, places, to, unit, i, x)?;
    }
    Ok(())
}

/// The pointers of a module, by ascending place.
pub(crate) fn pointers(alloc: Global, places: &Places) -> Result<Items<PointerPlace>, NoMemory>
    requires { AllByRecursion IsSound places.now.objects.now }
    ensures pointers { IfOk result (λ found. map pointer_of found ≡ contents.pointers places.now.kind places.now.objects.now) }
    ensures placed { IfOk result (λ found. AllByRecursion (IsPlacedPointer places.now.objects.now) (map pointer_of found)) }
{
    let mut found = Items::new(alloc);
    for (unit, object) in places.objects.iter().enumerate() {
        push_unit(alloc, places, &mut found, unit, object)?;
    }
    Ok(found)
}
