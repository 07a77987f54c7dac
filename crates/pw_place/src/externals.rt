//! The external names of a module.
ghost use Rattle.std.specs.Prelude.{◌≡◌, ◌<◌, ◌^◌, map, length, bytes_eq, OnOk, IfOk};
ghost use Rattle.std.specs.List.{position_or_len};
ghost use Rattle.pw_place.specs.Names.{external_names};
ghost use Rattle.pw_place.specs.Steps.ExternalLists as steps;

use crate::name_list::NameList;
use pw_base::NoMemory;
use pw_code::Object;
use pw_tree::Ext;
use sqlite_items::Items;
use std::alloc::Global;

/// External names in order of first appearance, each with the text that it has there.
#[derive(Drop)]
pub(crate) struct Externals {
    pub(crate) entries: Items<Ext>,
    /// The names alone.
    names: NameList,
    ghost same: { names ≡ map (λ n. n.name) entries },
}

impl Externals {
    /// How many of the names stand before this one.
    pub(crate) fn number(&self, name: &[u8]) -> u32
        requires { length self.now.entries < 2 ^ 32 }
        ensures { result ≡ position_or_len (λ n. bytes_eq name.now n.name) self.now.entries }
    {
        self.names.number(name)
    }
}

/// An entry joins others, unless one of them has its name.
fn add(
    alloc: Global,
    n: &Ext,
    names: &mut NameList,
    entries: &mut Items<Ext>,
) -> Result<(), NoMemory>
    requires { names.old ≡ map (λ n. n.name) entries.old }
    ensures same { OnOk result (names.new ≡ map (λ n. n.name) entries.new) }
    ensures joined { OnOk result (entries.new ≡ steps.entry_joined entries.old n.now) }
{
    if names.contains(n.name.bytes()) {
        return Ok(());
    }
    names.add(alloc, n.name.bytes())?;
    entries.push(n.copy(alloc)?)?;
    Ok(())
}

/// The entries of a unit join others.
fn add_all(
    alloc: Global,
    more: &[Ext],
    names: &mut NameList,
    entries: &mut Items<Ext>,
) -> Result<(), NoMemory>
    requires { names.old ≡ map (λ n. n.name) entries.old }
    ensures same { OnOk result (names.new ≡ map (λ n. n.name) entries.new) }
    ensures joined { OnOk result (entries.new ≡ steps.entries_joined entries.old more.now) }
{
    for n in more {
        add(alloc, n, names, entries)?;
    }
    Ok(())
}

/// The external names of these units.
pub(crate) fn find_externals(alloc: Global, objects: &[Object]) -> Result<Externals, NoMemory>
    ensures { IfOk result (λ found. found.entries ≡ external_names objects.now) }
{
    let mut names = NameList::new(alloc);
    let mut entries = Items::new(alloc);
    for object in objects {
        add_all(alloc, object.names.as_slice(), &mut names, &mut entries)?;
    }
    Ok(Externals { entries, names })
}
