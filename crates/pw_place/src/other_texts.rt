//! Names to which units give different types.
ghost use Rattle.std.specs.Prelude.{◌≡◌, [], ◌<◌, ◌^◌, length, find, fold, bytes_eq, OnOk, IfOk, option_copied};
ghost use Rattle.pw_place.specs.Refusals as refusals;
ghost use Rattle.pw_place.specs.Steps.OtherTexts as steps;

use crate::externals::Externals;
use crate::name_list::NameList;
use pw_base::NoMemory;
use pw_code::Object;
use pw_tree::Ext;
use std::alloc::Global;

/// Whether two entries have one text.
fn has_text(first: &Ext, n: &Ext) -> bool
    ensures { result ≡ bytes_eq first.now.text n.now.text }
{
    first.text.bytes() == n.text.bytes()
}

/// Whether an entry has another text than the first of its name.
fn differs(externals: &Externals, n: &Ext) -> bool
    requires { length externals.now.entries < 2 ^ 32 }
    ensures { result ≡ steps.differs externals.now.entries n.now }
{
    match externals
        .entries
        .get(externals.number(n.name.bytes()) as usize)
    {
        Some(first) => !has_text(first, n),
        None => false,
    }
}

/// The names of those entries that differ join others.
fn add_different(
    alloc: Global,
    externals: &Externals,
    more: &[Ext],
    names: &mut NameList,
) -> Result<(), NoMemory>
    requires { length externals.now.entries < 2 ^ 32 }
    ensures { OnOk result (names.new ≡ fold (steps.different_joined externals.now.entries) names.old more.now) }
{
    for n in more {
        if differs(externals, n) {
            names.add(alloc, n.name.bytes())?;
        }
    }
    Ok(())
}

/// The names that have another text beside their first one.
pub(crate) fn different_names(
    alloc: Global,
    externals: &Externals,
    objects: &[Object],
) -> Result<NameList, NoMemory>
    requires { length externals.now.entries < 2 ^ 32 }
    ensures { IfOk result (λ names. names ≡ fold (steps.unit_different externals.now.entries) [] objects.now) }
{
    let mut names = NameList::new(alloc);
    for object in objects {
        add_different(alloc, externals, object.names.as_slice(), &mut names)?;
    }
    Ok(names)
}

/// Whether an entry has another's name, and another text.
fn is_other(n: &Ext, other: &Ext) -> bool
    ensures { result ≡ steps.is_other n.now other.now }
{
    n.name.bytes() == other.name.bytes() && n.text.bytes() != other.text.bytes()
}

/// The first of these entries that has another's name, and another text.
fn other_among<'a>(n: &Ext, entries: &'a [Ext]) -> Option<&'a Ext>
    ensures { option_copied result ≡ find (steps.is_other n.now) entries.now }
{
    entries.iter().find(|other| is_other(n, other))
}

/// The first entry of the units that has another's name, and another text.
pub(crate) fn other_entry<'a>(n: &Ext, objects: &'a [Object]) -> Option<&'a Ext>
    ensures { option_copied result ≡ refusals.other_entry objects.now n.now }
{
    for object in objects {
        if let Some(other) = other_among(n, object.names.as_slice()) {
            return Some(other);
        }
    }
    None
}
