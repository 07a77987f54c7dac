//! The object of a unit.
ghost use Rattle.std.specs.Prelude.{◌≡◌, ◌<◌, ◌^◌, length, map, IfOk};
ghost use Rattle.pw_tree.specs.Units.{typed_function_of, unit_of};
ghost use Rattle.pw_tree.specs.WellTypedUnits.{IsWellTyped};
ghost use Rattle.pw_code.specs.Objects as objects;
ghost use Rattle.pw_code.specs.Soundness.{IsSound};
ghost use Rattle.pw_gen.specs.Steps.Functions.{IsOfUnit, AreOfUnit};
ghost use Rattle.pw_gen.specs.Steps.Numbers.{AreNumbers};

use crate::dependencies::dependencies;
use crate::function::function_items;
use crate::function_text::text_of_function;
use crate::numbers::{numbers_in_order, renumber};
use crate::variables::variables_in_order;
use pw_base::{Name, NoMemory};
use pw_code::{FunCode, Item, Object};
use pw_tree::{Ext, TFun, TUnit, TVar};
use sqlite_items::Items;
use std::alloc::Global;

/// The items of a function in the object.
fn items_in_order(
    alloc: Global,
    vars: &[TVar],
    numbers: &[u32],
    f: &TFun,
) -> Result<Items<Item>, NoMemory>
    requires few { length vars.now < 2 ^ 31 }
    requires numbers { AreNumbers vars.now numbers.now }
    requires function { IsOfUnit (typed_function_of f.now) }
    ensures { IfOk result (λ it. it ≡ (objects.function_object vars.now (typed_function_of f.now)).items) }
{
    let mut items = function_items(alloc, f)?;
    renumber(vars, numbers, items.as_mut_slice());
    Ok(Items::from_vec(items))
}

/// A compiled function.
fn function_object(
    alloc: Global,
    vars: &[TVar],
    numbers: &[u32],
    f: &TFun,
) -> Result<FunCode, NoMemory>
    requires few { length vars.now < 2 ^ 31 }
    requires numbers { AreNumbers vars.now numbers.now }
    requires function { IsOfUnit (typed_function_of f.now) }
    ensures { IfOk result (λ it. it ≡ objects.function_object vars.now (typed_function_of f.now)) }
{
    Ok(FunCode {
        name: f.name.copy(alloc)?,
        global: f.global,
        text: text_of_function(alloc, &f.sig)?,
        items: items_in_order(alloc, vars, numbers, f)?,
        deps: dependencies(alloc, f)?,
    })
}

/// The compiled functions.
fn function_objects(alloc: Global, vars: &[TVar], funs: &[TFun]) -> Result<Items<FunCode>, NoMemory>
    requires few { length vars.now < 2 ^ 31 }
    requires functions { AreOfUnit (map typed_function_of funs.now) }
    ensures { IfOk result (λ it. it ≡ map (objects.function_object vars.now) (map typed_function_of funs.now)) }
{
    let numbers = numbers_in_order(alloc, vars)?;
    let mut objects = Items::new(alloc);
    for f in funs {
        objects.push(function_object(alloc, vars, numbers.as_slice(), f)?)?;
    }
    Ok(objects)
}

/// Equal names.
fn copy_names(alloc: Global, names: &[Ext]) -> Result<Items<Ext>, NoMemory>
    ensures { IfOk result (λ copy. copy ≡ names.now) }
{
    let mut copies = Items::new(alloc);
    for name in names {
        copies.push(name.copy(alloc)?)?;
    }
    Ok(copies)
}

/// The object of a unit that goes by this name.
fn compile(alloc: Global, unit: &TUnit, name: &Name) -> Result<Object, NoMemory>
    requires { IsWellTyped (unit_of unit.now) }
    ensures { IfOk result (λ object. object ≡ objects.object_of name.now (unit_of unit.now)) }
{
    let vars = unit.vars.as_slice();
    Ok(Object {
        unit: name.copy(alloc)?,
        funs: function_objects(alloc, vars, unit.funs.as_slice())?,
        vars: variables_in_order(alloc, vars)?,
        names: copy_names(alloc, unit.names.as_slice())?,
    })
}

/// The object of a unit that goes by this name, which is sound.
pub fn object(alloc: Global, unit: &TUnit, name: &Name) -> Result<Object, NoMemory>
    requires { IsWellTyped (unit_of unit.now) }
    ensures scheme { IfOk result (λ object. object ≡ objects.object_of name.now (unit_of unit.now)) }
    ensures sound { IfOk result IsSound }
{
    compile(alloc, unit, name)
}
