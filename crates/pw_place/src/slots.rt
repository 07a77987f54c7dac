//! The names that have slots.
ghost use Rattle.std.specs.Prelude.{◌≡◌, fold, OnOk, IfOk};
ghost use Rattle.pw_place.specs.Places as places;
ghost use Rattle.pw_place.specs.Sizes.{entry_items};
ghost use Rattle.pw_place.specs.Steps.NameLists.{item_joined, code_joined, function_joined, object_joined};

use crate::name_list::NameList;
use pw_base::{Kind, NoMemory};
use pw_code::{FunCode, Item, Object};
use pw_tree::Ref;
use std::alloc::Global;

/// The external name that an item refers to joins others.
fn add_item(alloc: Global, item: &Item, names: &mut NameList) -> Result<(), NoMemory>
    ensures { OnOk result (names.new ≡ item_joined names.old item.now) }
{
    match item {
        Item::Addr {
            to: Ref::Global(name),
            ..
        } => names.add(alloc, name.bytes()),
        _ => Ok(()),
    }
}

/// The names that code refers to join others.
fn add_code(alloc: Global, items: &[Item], names: &mut NameList) -> Result<(), NoMemory>
    ensures { OnOk result (names.new ≡ code_joined names.old items.now) }
{
    for item in items {
        add_item(alloc, item, names)?;
    }
    Ok(())
}

/// The names that functions refer to join others.
fn add_functions(alloc: Global, funs: &[FunCode], names: &mut NameList) -> Result<(), NoMemory>
    ensures { OnOk result (names.new ≡ fold function_joined names.old funs.now) }
{
    for f in funs {
        add_code(alloc, f.items.as_slice(), names)?;
    }
    Ok(())
}

/// The name that the entry refers to joins others.
fn add_entry(alloc: Global, kind: Kind, names: &mut NameList) -> Result<(), NoMemory>
    ensures { OnOk result (names.new ≡ code_joined names.old (entry_items kind)) }
{
    match kind {
        Kind::Program => names.add(alloc, b"main"),
        Kind::Library => Ok(()),
    }
}

/// The names that have slots, in order of first reference.
pub(crate) fn slot_names(
    alloc: Global,
    kind: Kind,
    objects: &[Object],
) -> Result<NameList, NoMemory>
    ensures { IfOk result (λ names. names ≡ places.slot_names kind objects.now) }
{
    let mut names = NameList::new(alloc);
    add_entry(alloc, kind, &mut names)?;
    for object in objects {
        add_functions(alloc, object.funs.as_slice(), &mut names)?;
    }
    Ok(names)
}
