//! The places of all definitions and slots of a module.
ghost use Rattle.std.specs.Prelude.{◌≡◌, ◌<◌, length, slice_index, IfOk};
ghost use Rattle.pw_place.specs.Names as names;
ghost use Rattle.pw_place.specs.Places as places;
ghost use Rattle.pw_place.specs.Steps.PlaceLists.{ArePlaces, IsPlacedRef};
ghost use Rattle.pw_place.specs.Steps.Running.{first_places};
ghost use Rattle.pw_place.specs.Steps.WithinLimits.{IsWithinLimits};

use crate::externals::Externals;
use crate::name_list::NameList;
use crate::placing::{Next, all_places};
use crate::sizes::{entry_bytes, initialised_bytes};
use crate::slots::slot_names;
use pw_base::{Kind, Limits, NoMemory};
use pw_code::Object;
use pw_tree::Ref;
use sqlite_items::Items;
use std::alloc::Global;

/// The bytes of a slot.
const SLOT_BYTES: u32 = 8;

/// Where a unit's functions start, in bytes after the start of the text, and its variables, after the start of the data; each
/// by its number in the object.
#[derive(Drop)]
pub(crate) struct UnitPlaces {
    pub(crate) functions: Items<u32>,
    pub(crate) variables: Items<u32>,
}

/// The objects of a module, within the limits, and where their parts stand.
#[derive(Drop)]
pub(crate) struct Places<'a> {
    pub(crate) kind: Kind,
    pub(crate) objects: &'a [Object],
    /// By the unit's number.
    pub(crate) units: Items<UnitPlaces>,
    /// The names that have slots, in order.
    pub(crate) slots: NameList,
    pub(crate) externals: Externals,
    ghost placed: { ArePlaces kind objects.now units slots externals.entries },
}

/// A number of a list; 0 past its end.
fn number_at(numbers: &[u32], i: usize) -> u32
    ensures { result ≡ slice_index numbers.now i }
{
    match numbers.get(i) {
        Some(number) => *number,
        None => 0,
    }
}

impl<'a> Places<'a> {
    /// Where a function starts, in bytes after the start of the text.
    pub(crate) fn function_start(&self, unit: usize, i: usize) -> u32
        requires { i < length (places.functions_in self.now.objects.now unit) }
        ensures { result ≡ places.function_start self.now.kind self.now.objects.now unit i }
    {
        match self.units.get(unit) {
            Some(places) => number_at(places.functions.as_slice(), i),
            None => 0,
        }
    }

    /// Where a variable starts, in bytes after the start of the data.
    pub(crate) fn variable_start(&self, unit: usize, i: usize) -> u32
        requires { i < length (places.variables_in self.now.objects.now unit) }
        ensures { result ≡ places.variable_start self.now.kind self.now.objects.now unit i }
    {
        match self.units.get(unit) {
            Some(places) => number_at(places.variables.as_slice(), i),
            None => 0,
        }
    }

    /// Where the slot of an external name starts, in bytes after the start of the data.
    pub(crate) fn slot_start(&self, name: &[u8]) -> u32
        ensures { result ≡ places.slot_start self.now.kind self.now.objects.now name.now }
    {
        SLOT_BYTES * self.slots.number(name)
    }

    /// What the code of a unit reaches by a reference, in bytes from the module's base.
    pub(crate) fn target(&self, unit: usize, to: &Ref) -> u32
        requires { IsPlacedRef self.now.objects.now unit to.now }
        ensures { result ≡ places.target self.now.kind self.now.objects.now unit to.now }
    {
        match to {
            Ref::Global(name) => Limits::DATA_OFFSET as u32 + self.slot_start(name.bytes()),
            Ref::LocalFun(i) => Limits::TEXT_OFFSET as u32 + self.function_start(unit, *i as usize),
            Ref::LocalVar(i) => Limits::DATA_OFFSET as u32 + self.variable_start(unit, *i as usize),
        }
    }

    /// The number of an external name among these.
    pub(crate) fn name_number(&self, name: &[u8]) -> u32
        ensures { result ≡ names.name_number self.now.objects.now name.now }
    {
        self.externals.number(name)
    }
}

/// The places of the first definitions.
fn first_places(kind: Kind, objects: &[Object], slots: &NameList) -> Next
    requires limits { IsWithinLimits kind objects.now }
    requires slots { slots.now ≡ places.slot_names kind objects.now }
    ensures { result ≡ first_places kind objects.now }
{
    let slots_size = SLOT_BYTES * slots.len() as u32;
    Next {
        function: entry_bytes(kind) as u32,
        initialised: slots_size,
        others: slots_size + initialised_bytes(objects) as u32,
    }
}

/// The places of objects within the limits, whose external names these are.
pub(crate) fn place_objects<'a>(
    alloc: Global,
    kind: Kind,
    objects: &'a [Object],
    externals: Externals,
) -> Result<Places<'a>, NoMemory>
    requires limits { IsWithinLimits kind objects.now }
    requires names { externals.entries ≡ names.external_names objects.now }
    ensures kind { IfOk result (λ placed. placed.kind ≡ kind) }
    ensures objects { IfOk result (λ placed. placed.objects.now ≡ objects.now) }
{
    let slots = slot_names(alloc, kind, objects)?;
    let units = all_places(alloc, objects, first_places(kind, objects, &slots))?;
    Ok(Places {
        kind,
        objects,
        units,
        slots,
        externals,
    })
}
