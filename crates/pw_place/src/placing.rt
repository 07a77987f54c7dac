//! The places of definitions, one after another.
ghost use Rattle.std.specs.Prelude.{◌≡◌, ◌+◌, ◌<◌, ◌^◌, if◌then◌else◌, fold, sum_by, OnOk, IfOk};
ghost use Rattle.pw_code.specs.Objects.{is_initialised};
ghost use Rattle.pw_place.specs.Places as places;
ghost use Rattle.pw_place.specs.Sizes as sizes;
ghost use Rattle.pw_place.specs.Steps.Running as steps;

use crate::places::UnitPlaces;
use crate::sizes::{function_bytes, room};
use pw_base::NoMemory;
use pw_code::{FunCode, Object};
use pw_tree::TVar;
use sqlite_items::Items;
use std::alloc::Global;

/// The bytes of an element.
const ELEMENT_BYTES: u32 = 8;

/// Where the next function, the next variable with an initialiser, and the next other variable stand.
#[derive(Clone, Copy)]
pub(crate) struct Next {
    pub(crate) function: u32,
    pub(crate) initialised: u32,
    pub(crate) others: u32,
}

/// The bytes of a variable.
fn variable_bytes(x: &TVar) -> u32
    requires { sizes.variable_bytes x.now < 2 ^ 32 }
    ensures { result ≡ sizes.variable_bytes x.now }
{
    ELEMENT_BYTES * room(x) as u32
}

/// The places of functions.
fn function_places(alloc: Global, funs: &[FunCode], next: &mut Next) -> Result<Items<u32>, NoMemory>
    requires { next.old.function + sum_by sizes.function_bytes funs.now < 2 ^ 32 }
    ensures places { IfOk result (λ it. it ≡ steps.running steps.function_place steps.after_function next.old funs.now) }
    ensures next { OnOk result (next.new ≡ fold steps.after_function next.old funs.now) }
{
    let mut places = Items::new(alloc);
    for f in funs {
        places.push(next.function)?;
        next.function += function_bytes(f) as u32;
    }
    Ok(places)
}

/// Where a variable stands.
fn variable_place(next: &Next, x: &TVar) -> u32
    ensures { result ≡ steps.variable_place next.now x.now }
{
    if x.init.is_some() {
        next.initialised
    } else {
        next.others
    }
}

/// Where the next ones stand after a variable.
fn after_variable(next: Next, x: &TVar) -> Next
    requires few { sizes.variable_bytes x.now < 2 ^ 32 }
    requires initialised { (if is_initialised x.now then next.initialised + sizes.variable_bytes x.now else 0) < 2 ^ 32 }
    requires others { (if is_initialised x.now then 0 else next.others + sizes.variable_bytes x.now) < 2 ^ 32 }
    ensures { result ≡ steps.after_variable next x.now }
{
    let bytes = variable_bytes(x);
    if x.init.is_some() {
        Next {
            function: next.function,
            initialised: next.initialised + bytes,
            others: next.others,
        }
    } else {
        Next {
            function: next.function,
            initialised: next.initialised,
            others: next.others + bytes,
        }
    }
}

/// The places of variables.
fn variable_places(alloc: Global, vars: &[TVar], next: &mut Next) -> Result<Items<u32>, NoMemory>
    requires initialised { next.old.initialised + places.initialised_size vars.now < 2 ^ 32 }
    requires others { next.old.others + places.uninitialised_size vars.now < 2 ^ 32 }
    ensures places { IfOk result (λ it. it ≡ steps.running steps.variable_place steps.after_variable next.old vars.now) }
    ensures next { OnOk result (next.new ≡ fold steps.after_variable next.old vars.now) }
{
    let mut places = Items::new(alloc);
    for x in vars {
        places.push(variable_place(next, x))?;
        *next = after_variable(*next, x);
    }
    Ok(places)
}

/// The places of a unit's definitions.
fn unit_places(alloc: Global, object: &Object, next: &mut Next) -> Result<UnitPlaces, NoMemory>
    requires functions { next.old.function + sum_by sizes.function_bytes object.now.funs < 2 ^ 32 }
    requires initialised { next.old.initialised + places.initialised_size object.now.vars < 2 ^ 32 }
    requires others { next.old.others + places.uninitialised_size object.now.vars < 2 ^ 32 }
    ensures places { IfOk result (λ it. it ≡ steps.places_of_unit next.old object.now) }
    ensures next { OnOk result (next.new ≡ steps.after_unit next.old object.now) }
{
    let functions = function_places(alloc, object.funs.as_slice(), next)?;
    let variables = variable_places(alloc, object.vars.as_slice(), next)?;
    Ok(UnitPlaces {
        functions,
        variables,
    })
}

/// The places of all units' definitions.
pub(crate) fn all_places(
    alloc: Global,
    objects: &[Object],
    start: Next,
) -> Result<Items<UnitPlaces>, NoMemory>
    requires functions { start.function + sum_by sizes.function_bytes (places.functions objects.now) < 2 ^ 32 }
    requires initialised { start.initialised + places.initialised_size (places.variables objects.now) < 2 ^ 32 }
    requires others { start.others + places.uninitialised_size (places.variables objects.now) < 2 ^ 32 }
    ensures { IfOk result (λ it. it ≡ steps.running steps.places_of_unit steps.after_unit start objects.now) }
{
    let mut next = start;
    let mut units = Items::new(alloc);
    for object in objects {
        units.push(unit_places(alloc, object, &mut next)?)?;
    }
    Ok(units)
}
