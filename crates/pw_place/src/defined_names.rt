//! The external names that units define.
ghost use Rattle.std.specs.Prelude.{◌≡◌, fold, OnOk, IfOk};
ghost use Rattle.pw_place.specs.Steps.DefinedNames as steps;

use crate::name_list::NameList;
use pw_base::NoMemory;
use pw_code::{FunCode, Object};
use pw_tree::TVar;
use std::alloc::Global;

/// The names that are defined, and those that are defined more than once.
#[derive(Drop)]
pub(crate) struct DefinedNames {
    pub(crate) all: NameList,
    pub(crate) twice: NameList,
}

/// A name is defined once more.
fn define(alloc: Global, name: &[u8], names: &mut DefinedNames) -> Result<(), NoMemory>
    ensures { OnOk result (names.new ≡ steps.defined names.old name.now) }
{
    if names.all.contains(name) {
        names.twice.add(alloc, name)?;
    }
    names.all.add(alloc, name)
}

/// The names of functions are defined, where their linkage is external.
fn define_functions(
    alloc: Global,
    funs: &[FunCode],
    names: &mut DefinedNames,
) -> Result<(), NoMemory>
    ensures { OnOk result (names.new ≡ fold steps.function_defined names.old funs.now) }
{
    for f in funs {
        if f.global {
            define(alloc, f.name.bytes(), names)?;
        }
    }
    Ok(())
}

/// The names of variables are.
fn define_variables(alloc: Global, vars: &[TVar], names: &mut DefinedNames) -> Result<(), NoMemory>
    ensures { OnOk result (names.new ≡ fold steps.variable_defined names.old vars.now) }
{
    for x in vars {
        if x.global {
            define(alloc, x.name.bytes(), names)?;
        }
    }
    Ok(())
}

/// The external names that these units define.
pub(crate) fn defined_names(alloc: Global, objects: &[Object]) -> Result<DefinedNames, NoMemory>
    ensures { IfOk result (steps.AreDefinedNames objects.now) }
{
    let mut names = DefinedNames {
        all: NameList::new(alloc),
        twice: NameList::new(alloc),
    };
    for object in objects {
        define_functions(alloc, object.funs.as_slice(), &mut names)?;
        define_variables(alloc, object.vars.as_slice(), &mut names)?;
    }
    Ok(names)
}
