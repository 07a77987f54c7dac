//! The symbols of a module's definitions.
ghost use Rattle.std.specs.Prelude.{◌≡◌, ◌++◌, Some, map, slice_get, IfOk, OnOk};
ghost use Rattle.std.specs.List.{enumerate_from, AllByRecursion};
ghost use Rattle.pw_tree.specs.Types.{IsValueType, IsArraySize};
ghost use Rattle.pw_code.specs.Soundness.{IsSound};
ghost use Rattle.pw_place.specs.Places.{functions_in, variables_in};
ghost use Rattle.pw_place.specs.Symbols as symbols;

use crate::places::Places;
use crate::sizes::{function_bytes, room};
use crate::variable_text::variable_text;
use pw_base::NoMemory;
use pw_code::{FunCode, Object};
use pw_module::{SymKind, Symbol};
use pw_tree::TVar;
use sqlite_items::Items;
use std::alloc::Global;

/// The bytes of an element.
const ELEMENT_BYTES: u64 = 8;

/// The symbol of a unit's function.
fn function_symbol(
    alloc: Global,
    places: &Places,
    unit: usize,
    i: usize,
    f: &FunCode,
) -> Result<Symbol, NoMemory>
    requires { slice_get (functions_in places.now.objects.now unit) i ≡ Some f.now }
    ensures { IfOk result (λ s. s ≡ symbols.function_symbol places.now.kind places.now.objects.now unit (i, f.now)) }
{
    let kind = SymKind::Fun(u64::from(places.function_start(unit, i)), function_bytes(f));
    Ok(Symbol {
        name: f.name.copy(alloc)?,
        global: f.global,
        kind,
        text: f.text.copy(alloc)?,
    })
}

/// The symbol of a unit's variable.
fn variable_symbol(
    alloc: Global,
    places: &Places,
    unit: usize,
    i: usize,
    x: &TVar,
) -> Result<Symbol, NoMemory>
    requires variable { slice_get (variables_in places.now.objects.now unit) i ≡ Some x.now }
    requires valued { IsValueType x.now.ty }
    requires sized { IsArraySize x.now.count }
    ensures { IfOk result (λ s. s ≡ symbols.variable_symbol places.now.kind places.now.objects.now unit (i, x.now)) }
{
    let kind = SymKind::Var(
        u64::from(places.variable_start(unit, i)),
        ELEMENT_BYTES * room(x),
    );
    Ok(Symbol {
        name: x.name.copy(alloc)?,
        global: x.global,
        kind,
        text: variable_text(alloc, x.ty, x.count)?,
    })
}

/// Appends the symbols of a unit's functions.
fn push_functions(
    alloc: Global,
    places: &Places,
    to: &mut Items<Symbol>,
    unit: usize,
    functions: &[FunCode],
) -> Result<(), NoMemory>
    requires { functions_in places.now.objects.now unit ≡ functions.now }
    ensures { OnOk result (to.new ≡ to.old ++ map (symbols.function_symbol places.now.kind places.now.objects.now unit) (enumerate_from 0 functions.now)) }
{
    for (i, f) in functions.iter().enumerate() {
        to.push(function_symbol(alloc, places, unit, i, f)?)?;
    }
    Ok(())
}

/// Appends the symbols of a unit's variables.
fn push_variables(
    alloc: Global,
    places: &Places,
    to: &mut Items<Symbol>,
    unit: usize,
    variables: &[TVar],
) -> Result<(), NoMemory>
    requires variables { variables_in places.now.objects.now unit ≡ variables.now }
    requires valued { AllByRecursion (λ x. IsValueType x.ty) variables.now }
    requires sized { AllByRecursion (λ x. IsArraySize x.count) variables.now }
    ensures { OnOk result (to.new ≡ to.old ++ map (symbols.variable_symbol places.now.kind places.now.objects.now unit) (enumerate_from 0 variables.now)) }
{
    for (i, x) in variables.iter().enumerate() {
        to.push(variable_symbol(alloc, places, unit, i, x)?)?;
    }
    Ok(())
}

/// Appends the symbols of a unit's definitions.
fn push_unit(
    alloc: Global,
    places: &Places,
    to: &mut Items<Symbol>,
    unit: usize,
    object: &Object,
) -> Result<(), NoMemory>
    requires unit { slice_get places.now.objects.now unit ≡ Some object.now }
    requires sound { IsSound object.now }
    ensures { OnOk result (to.new ≡ to.old ++ symbols.unit_symbols places.now.kind places.now.objects.now (unit, object.now)) }
{
    push_functions(alloc, places, to, unit, object.funs.as_slice())?;
    push_variables(alloc, places, to, unit, object.vars.as_slice())
}

/// The symbols of all definitions, unit by unit.
pub(crate) fn defined_symbols(alloc: Global, places: &Places) -> Result<Items<Symbol>, NoMemory>
    requires { AllByRecursion IsSound places.now.objects.now }
    ensures { IfOk result (λ defined. defined ≡ symbols.defined_symbols places.now.kind places.now.objects.now) }
{
    let mut defined = Items::new(alloc);
    for (unit, object) in places.objects.iter().enumerate() {
        push_unit(alloc, places, &mut defined, unit, object)?;
    }
    Ok(defined)
}
