//! The variables of an object: those with an initialiser first, each with a value for every element.
ghost use Rattle.std.specs.Prelude.{◌≡◌, ◌++◌, map, filter, OnOk, IfOk};
ghost use Rattle.pw_tree.specs.WellTypedUnits as units;
ghost use Rattle.pw_code.specs.Objects as objects;

use pw_base::NoMemory;
use pw_tree::{Init, TVar};
use sqlite_items::Items;
use std::alloc::Global;

/// How many elements a variable has.
fn room(count: Option<u32>) -> usize
    ensures { result ≡ units.room count }
{
    match count {
        None => 1,
        Some(size) => size as usize,
    }
}

/// Equal values.
fn copy_values(alloc: Global, values: &[Init]) -> Result<Items<Init>, NoMemory>
    ensures { IfOk result (λ copy. copy ≡ values.now) }
{
    let mut copies = Items::new(alloc);
    for value in values {
        copies.push(value.copy(alloc)?)?;
    }
    Ok(copies)
}

/// The values of an initialiser, and zeros for the elements that it leaves out.
fn fill(alloc: Global, x: &TVar, values: &[Init]) -> Result<Items<Init>, NoMemory>
    ensures { IfOk result (λ full. full ≡ objects.fill x.now values.now) }
{
    let mut full = copy_values(alloc, values)?;
    let missing = room(x.count).saturating_sub(values.len());
    for _added in 0..missing {
        full.push(Init::Num(0))?;
    }
    Ok(full)
}

/// The initialiser of a variable, where it has one, with a value for each element.
fn filled_initialiser(alloc: Global, x: &TVar) -> Result<Option<Items<Init>>, NoMemory>
    ensures { IfOk result (λ init. init ≡ (objects.filled x.now).init) }
{
    match &x.init {
        Some(values) => Ok(Some(fill(alloc, x, values.as_slice())?)),
        None => Ok(None),
    }
}

/// A variable, with a value for each element where it has an initialiser.
fn filled(alloc: Global, x: &TVar) -> Result<TVar, NoMemory>
    ensures { IfOk result (λ copy. copy ≡ objects.filled x.now) }
{
    Ok(TVar {
        name: x.name.copy(alloc)?,
        global: x.global,
        ty: x.ty,
        count: x.count,
        init: filled_initialiser(alloc, x)?,
    })
}

/// Appends the variables with an initialiser.
fn push_initialised(alloc: Global, vars: &[TVar], to: &mut Items<TVar>) -> Result<(), NoMemory>
    ensures { OnOk result (to.new ≡ to.old ++ map objects.filled (filter objects.is_initialised vars.now)) }
{
    for x in vars {
        if x.init.is_some() {
            to.push(filled(alloc, x)?)?;
        }
    }
    Ok(())
}

/// Appends the variables without an initialiser.
fn push_uninitialised(alloc: Global, vars: &[TVar], to: &mut Items<TVar>) -> Result<(), NoMemory>
    ensures { OnOk result (to.new ≡ to.old ++ filter objects.is_uninitialised vars.now) }
{
    for x in vars {
        if x.init.is_none() {
            to.push(x.copy(alloc)?)?;
        }
    }
    Ok(())
}

/// The variables in the order of an object.
pub(crate) fn variables_in_order(alloc: Global, vars: &[TVar]) -> Result<Items<TVar>, NoMemory>
    ensures { IfOk result (λ ordered. ordered ≡ objects.variables_in_order vars.now) }
{
    let mut ordered = Items::new(alloc);
    push_initialised(alloc, vars, &mut ordered)?;
    push_uninitialised(alloc, vars, &mut ordered)?;
    Ok(ordered)
}
