//! The numbers of a module's symbols.
ghost use Rattle.std.specs.Prelude.{◌≡◌, ◌+◌, ◌<◌, ◌^◌, length, slice_index, IfOk};
ghost use Rattle.std.specs.List.{AllByRecursion};
ghost use Rattle.pw_code.specs.Soundness.{IsSound};
ghost use Rattle.pw_place.specs.Places.{functions_in, variables_in};
ghost use Rattle.pw_place.specs.Symbols as symbols;
ghost use Rattle.pw_place.specs.Steps.PlaceLists.{IsPlacedRef};
ghost use Rattle.pw_place.specs.Steps.NumberLists.{AreSymbolNumbers, numbers_from, number_after, is_static_function, is_static_variable, static_in, unit_numbers, all_numbers, definitions_in, all_definitions};

use crate::places::Places;
use pw_base::{Kind, NoMemory};
use pw_code::{FunCode, Object};
use pw_tree::{Ref, TVar};
use sqlite_items::Items;
use std::alloc::Global;

/// The numbers of the symbols of a unit's static functions and variables, each by its number in the object. Where an external
/// definition stands, it is the number of the next static one.
#[derive(Drop)]
pub(crate) struct UnitNumbers {
    pub(crate) functions: Items<u32>,
    pub(crate) variables: Items<u32>,
}

/// The placed objects of a module, and the numbers of its symbols.
#[derive(Drop)]
pub(crate) struct SymbolNumbers<'a> {
    pub(crate) places: &'a Places<'a>,
    /// By the unit's number.
    units: Items<UnitNumbers>,
    /// The number of the first external name's symbol.
    first_external: u32,
    ghost numbered: { AreSymbolNumbers places.now.kind places.now.objects.now units first_external },
}

impl<'a> SymbolNumbers<'a> {
    /// The number of an external name's symbol.
    pub(crate) fn external(&self, name: &[u8]) -> u32
        ensures { result ≡ symbols.external_number self.now.places.now.kind self.now.places.now.objects.now name.now }
    {
        self.first_external + self.places.name_number(name)
    }

    /// The number of the symbol of a unit's static function.
    pub(crate) fn static_function(&self, unit: usize, i: usize) -> u32
        requires { i < length (functions_in self.now.places.now.objects.now unit) }
        ensures { result ≡ symbols.static_function_number self.now.places.now.kind self.now.places.now.objects.now unit i }
    {
        match self.units.get(unit) {
            Some(numbers) => number_at(numbers.functions.as_slice(), i),
            None => 0,
        }
    }

    /// The number of the symbol of a unit's static variable.
    pub(crate) fn static_variable(&self, unit: usize, i: usize) -> u32
        requires { i < length (variables_in self.now.places.now.objects.now unit) }
        ensures { result ≡ symbols.static_variable_number self.now.places.now.kind self.now.places.now.objects.now unit i }
    {
        match self.units.get(unit) {
            Some(numbers) => number_at(numbers.variables.as_slice(), i),
            None => 0,
        }
    }

    /// The number of the symbol that a unit's reference means.
    pub(crate) fn of(&self, unit: usize, to: &Ref) -> u32
        requires { IsPlacedRef self.now.places.now.objects.now unit to.now }
        ensures { result ≡ symbols.symbol_number self.now.places.now.kind self.now.places.now.objects.now unit to.now }
    {
        match to {
            Ref::Global(name) => self.external(name.bytes()),
            Ref::LocalFun(i) => self.static_function(unit, *i as usize),
            Ref::LocalVar(i) => self.static_variable(unit, *i as usize),
        }
    }
}

/// A number of a list; 0 past its end.
fn number_at(numbers: &[u32], i: usize) -> u32
    ensures { result ≡ slice_index numbers.now i }
{
    match numbers.get(i) {
        Some(number) => *number,
        None => 0,
    }
}

/// The number after a definition's.
fn after(next: u32, is_static: bool) -> u32
    requires { next + 1 < 2 ^ 32 }
    ensures { result ≡ number_after next is_static }
{
    if is_static { next + 1 } else { next }
}

/// The numbers of the static functions among these from `first` on, and the number after them.
fn number_functions(
    alloc: Global,
    first: u32,
    functions: &[FunCode],
) -> Result<(Items<u32>, u32), NoMemory>
    requires { first + length functions.now < 2 ^ 32 }
    ensures numbers { IfOk result (λ n. n.0 ≡ numbers_from is_static_function first functions.now) }
    ensures next { IfOk result (λ n. n.1 ≡ first + symbols.static_functions functions.now) }
{
    let mut numbers = Items::new(alloc);
    let mut next = first;
    for f in functions {
        numbers.push(next)?;
        next = after(next, !f.global);
    }
    Ok((numbers, next))
}

/// The numbers of the static variables among these from `first` on, and the number after them.
fn number_variables(
    alloc: Global,
    first: u32,
    variables: &[TVar],
) -> Result<(Items<u32>, u32), NoMemory>
    requires { first + length variables.now < 2 ^ 32 }
    ensures numbers { IfOk result (λ n. n.0 ≡ numbers_from is_static_variable first variables.now) }
    ensures next { IfOk result (λ n. n.1 ≡ first + symbols.static_variables variables.now) }
{
    let mut numbers = Items::new(alloc);
    let mut next = first;
    for x in variables {
        numbers.push(next)?;
        next = after(next, !x.global);
    }
    Ok((numbers, next))
}

/// The numbers of a unit's static definitions from `first` on, and the number after them.
fn number_unit(alloc: Global, first: u32, object: &Object) -> Result<(UnitNumbers, u32), NoMemory>
    requires { first + definitions_in object.now < 2 ^ 32 }
    ensures numbers { IfOk result (λ n. n.0 ≡ unit_numbers first object.now) }
    ensures next { IfOk result (λ n. n.1 ≡ first + static_in object.now) }
{
    let (functions, next) = number_functions(alloc, first, object.funs.as_slice())?;
    let (variables, next) = number_variables(alloc, next, object.vars.as_slice())?;
    Ok((
        UnitNumbers {
            functions,
            variables,
        },
        next,
    ))
}

/// The numbers of all static definitions from `first` on, unit by unit, and the number after them.
fn number_units(
    alloc: Global,
    first: u32,
    objects: &[Object],
) -> Result<(Items<UnitNumbers>, u32), NoMemory>
    requires { first + all_definitions objects.now < 2 ^ 32 }
    ensures numbers { IfOk result (λ n. n.0 ≡ all_numbers first objects.now) }
    ensures next { IfOk result (λ n. n.1 ≡ first + symbols.static_definitions objects.now) }
{
    let mut units = Items::new(alloc);
    let mut next = first;
    for object in objects {
        let (numbers, after) = number_unit(alloc, next, object)?;
        units.push(numbers)?;
        next = after;
    }
    Ok((units, next))
}

/// The first number after the null symbol and that of the entry, which a program alone has.
fn first_static(kind: Kind) -> u32
    ensures { result ≡ symbols.first_static kind }
{
    match kind {
        Kind::Program => 2,
        Kind::Library => 1,
    }
}

/// The numbers of the symbols of placed objects.
pub(crate) fn number_symbols<'a>(
    alloc: Global,
    places: &'a Places<'a>,
) -> Result<SymbolNumbers<'a>, NoMemory>
    requires { AllByRecursion IsSound places.now.objects.now }
    ensures { IfOk result (λ numbers. numbers.places.now ≡ places.now) }
{
    let (units, first_external) = number_units(alloc, first_static(places.kind), places.objects)?;
    Ok(SymbolNumbers {
        places,
        units,
        first_external,
    })
}
