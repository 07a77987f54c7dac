//! The bytes of a module's data.
ghost use Rattle.std.specs.Prelude.{◌≡◌, ◌+◌, ◌<◌, ◌^◌, [], ◌∷◌, ◌++◌, length, flat_map, IfOk, OnOk};
ghost use Rattle.pw_base.specs.Field.{field};
ghost use Rattle.pw_place.specs.Sizes.{variable_bytes};
ghost use Rattle.pw_place.specs.Places.{variables, uninitialised_size};
ghost use Rattle.pw_place.specs.Contents as contents;

use crate::name_list::NameList;
use crate::places::Places;
use pw_base::NoMemory;
use pw_code::Object;
use pw_tree::{Init, TVar};
use pw_wire::put_u64;
use sqlite_items::Items;
use std::alloc::Global;

/// The bytes of an element.
const ELEMENT_BYTES: u64 = 8;

/// Appends an element: a number, or zeros where a function's address will stand.
fn put_element(to: &mut Vec<u8>, element: &Init) -> Result<(), NoMemory>
    ensures { OnOk result (to.new.items ≡ to.old.items ++ contents.element_bytes element.now) }
{
    match element {
        Init::Num(value) => put_u64(to, *value),
        Init::Fun(_) => put_u64(to, 0),
    }
}

/// Appends the values of an initialiser.
fn put_values(to: &mut Vec<u8>, values: &[Init]) -> Result<(), NoMemory>
    ensures { OnOk result (to.new.items ≡ to.old.items ++ flat_map contents.element_bytes values.now) }
{
    for value in values {
        put_element(to, value)?;
    }
    Ok(())
}

/// Appends what a file has of a variable: its initialiser's values, if any.
fn put_variable(to: &mut Vec<u8>, x: &TVar) -> Result<(), NoMemory>
    ensures { OnOk result (to.new.items ≡ to.old.items ++ contents.variable_content x.now) }
{
    match &x.init {
        Some(values) => put_values(to, values.as_slice()),
        None => Ok(()),
    }
}

/// Appends what a file has of variables.
fn put_variables(to: &mut Vec<u8>, xs: &[TVar]) -> Result<(), NoMemory>
    ensures { OnOk result (to.new.items ≡ to.old.items ++ flat_map contents.variable_content xs.now) }
{
    for x in xs {
        put_variable(to, x)?;
    }
    Ok(())
}

/// Appends what a file has of the variables of units.
fn put_units(to: &mut Vec<u8>, objects: &[Object]) -> Result<(), NoMemory>
    ensures { OnOk result (to.new.items ≡ to.old.items ++ flat_map contents.variable_content (variables objects.now)) }
{
    for object in objects {
        put_variables(to, object.vars.as_slice())?;
    }
    Ok(())
}

/// The bytes of a variable.
fn variable_size(x: &TVar) -> u64
    ensures { result ≡ variable_bytes x.now }
{
    let count = match x.count {
        Some(count) => u64::from(count),
        None => 1,
    };
    ELEMENT_BYTES * count
}

/// So many bytes and those of a variable without an initialiser.
fn with_variable(total: u64, x: &TVar) -> u64
    requires { total + uninitialised_size (x.now ∷ []) < 2 ^ 64 }
    ensures { result ≡ total + uninitialised_size (x.now ∷ []) }
{
    match &x.init {
        Some(_) => total,
        None => total + variable_size(x),
    }
}

/// So many bytes and those of the variables without an initialiser.
fn with_variables(total: u64, xs: &[TVar]) -> u64
    requires { total + uninitialised_size xs.now < 2 ^ 64 }
    ensures { result ≡ total + uninitialised_size xs.now }
{
    let mut total = total;
    for x in xs {
        total = with_variable(total, x);
    }
    total
}

/// The bytes of all variables without an initialiser.
fn all_zeros(objects: &[Object]) -> u64
    requires { uninitialised_size (variables objects.now) < 2 ^ 64 }
    ensures { result ≡ uninitialised_size (variables objects.now) }
{
    let mut total = 0;
    for object in objects {
        total = with_variables(total, object.vars.as_slice());
    }
    total
}

/// Appends zeros for the slots of names.
fn put_slots(to: &mut Vec<u8>, names: &NameList) -> Result<(), NoMemory>
    ensures { OnOk result (to.new.items ≡ to.old.items ++ flat_map (λ name. field 8 0) names.now) }
{
    for _ in 0..names.len() {
        put_u64(to, 0)?;
    }
    Ok(())
}

/// The bytes that a file has of the data: zeros for the slots, then the variables with an initialiser.
pub(crate) fn data_bytes(alloc: Global, places: &Places) -> Result<Items<u8>, NoMemory>
    ensures { IfOk result (λ bytes. bytes ≡ contents.bytes places.now.kind places.now.objects.now) }
{
    let mut bytes = Vec::new(alloc);
    put_slots(&mut bytes, &places.slots)?;
    put_units(&mut bytes, places.objects)?;
    Ok(Items::from_vec(bytes))
}

/// How many bytes of zeros follow them: those of the variables without an initialiser.
pub(crate) fn data_zeros(places: &Places) -> u64
    ensures { result ≡ contents.zeros places.now.objects.now }
{
    all_zeros(places.objects)
}
