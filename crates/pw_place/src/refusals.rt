//! The first fault of a link.
ghost use Rattle.std.specs.Prelude.{◌≡◌, ◌<◌, ◌^◌, length, find, bytes_eq, option_copied};
ghost use Rattle.std.specs.Option.{option_or};
ghost use Rattle.pw_place.specs.Names.{external_names};
ghost use Rattle.pw_place.specs.Places as places;
ghost use Rattle.pw_place.specs.Refusals as refusals;
ghost use Rattle.pw_place.specs.Steps.Passing.{Passes, count_fault, definitions_fault, names_fault, first_among, duplicate_among, main_lacks, main_differs};

use crate::counts::{elements, text_size};
use crate::defined_names::{DefinedNames, defined_names};
use crate::externals::Externals;
use crate::link_error::{LinkError, What};
use crate::name_list::NameList;
use crate::other_texts::{different_names, other_entry};
use pw_base::{Kind, Limits, TypeText};
use pw_code::Object;
use pw_tree::Ext;
use std::alloc::Global;

/// The name of the function that a program's entry calls.
const MAIN: &[u8] = b"main";

/// The text of its type, `long main(void)`.
const MAIN_TEXT: &[u8] = b"l()";

/// Whether a count is within its limit.
fn check_count(what: What, limit: u64, count: u64) -> Result<(), LinkError>
    ensures { Passes (refusals.above what limit count) result }
{
    if limit < count {
        return Err(LinkError::TooMany(what, count));
    }
    Ok(())
}

/// Whether the counts are within their limits.
fn check_counts(kind: Kind, objects: &[Object], externals: &Externals) -> Result<(), LinkError>
    requires names { externals.now.entries ≡ external_names objects.now }
    ensures { Passes (count_fault kind objects.now) result }
{
    check_count(
        What::Units,
        Limits::MODULE_UNITS as u64,
        objects.len() as u64,
    )?;
    check_count(
        What::Names,
        Limits::MODULE_NAMES as u64,
        externals.entries.len() as u64,
    )?;
    check_count(
        What::Elements,
        Limits::MODULE_ELEMENTS,
        elements(objects).ok_or(LinkError::NoMemory)?,
    )?;
    check_count(
        What::TextBytes,
        Limits::TEXT_BYTES,
        text_size(kind, objects).ok_or(LinkError::NoMemory)?,
    )
}

/// The first of the entries whose name is one of these.
fn first_among<'a>(names: &NameList, entries: &'a [Ext]) -> Option<&'a Ext>
    ensures { option_copied result ≡ first_among names.now entries.now }
{
    entries.iter().find(|n| names.contains(n.name.bytes()))
}

/// Whether no name is defined twice.
fn check_duplicates(
    alloc: Global,
    externals: &Externals,
    names: &DefinedNames,
) -> Result<(), LinkError>
    ensures { Passes (duplicate_among names.now.twice externals.now.entries) result }
{
    match first_among(&names.twice, externals.entries.as_slice()) {
        Some(n) => Err(LinkError::Duplicate(n.name.copy(alloc)?)),
        None => Ok(()),
    }
}

/// Whether a name has its first text alone.
fn check_type(alloc: Global, objects: &[Object], n: &Ext) -> Result<(), LinkError>
    ensures { Passes (refusals.type_fault objects.now n.now) result }
{
    match other_entry(n, objects) {
        Some(other) => Err(LinkError::TypeDiffers(
            n.name.copy(alloc)?,
            n.text.copy(alloc)?,
            other.text.copy(alloc)?,
        )),
        None => Ok(()),
    }
}

/// Whether each name has one text.
fn check_types(alloc: Global, objects: &[Object], externals: &Externals) -> Result<(), LinkError>
    requires names { externals.now.entries ≡ external_names objects.now }
    requires few { length externals.now.entries < 2 ^ 32 }
    ensures { Passes (refusals.type_differs objects.now) result }
{
    let names = different_names(alloc, externals, objects)?;
    match first_among(&names, externals.entries.as_slice()) {
        Some(n) => check_type(alloc, objects, n),
        None => Ok(()),
    }
}

/// Whether a program has a `main`.
fn check_main(kind: Kind, names: &DefinedNames) -> Result<(), LinkError>
    ensures { Passes (main_lacks kind names.now.all) result }
{
    match kind {
        Kind::Program => {
            if names.all.contains(MAIN) {
                Ok(())
            } else {
                Err(LinkError::NoMain)
            }
        }
        Kind::Library => Ok(()),
    }
}

/// Whether a text is that of `main`.
fn check_main_text(alloc: Global, text: &TypeText) -> Result<(), LinkError>
    ensures { Passes (refusals.wrong_text text.now) result }
{
    if text.bytes() == MAIN_TEXT {
        return Ok(());
    }
    Err(LinkError::MainType(text.copy(alloc)?))
}

/// The entry of `main` among these.
fn main_among(entries: &[Ext]) -> Option<&Ext>
    ensures { option_copied result ≡ find (λ n. bytes_eq n.name refusals.main_name) entries.now }
{
    entries.iter().find(|n| n.name.bytes() == MAIN)
}

/// Whether a program's `main` has its type.
fn check_main_type(alloc: Global, kind: Kind, externals: &Externals) -> Result<(), LinkError>
    ensures { Passes (main_differs kind externals.now.entries) result }
{
    match kind {
        Kind::Program => match main_among(externals.entries.as_slice()) {
            Some(n) => check_main_text(alloc, &n.text),
            None => Ok(()),
        },
        Kind::Library => Ok(()),
    }
}

/// Whether names, of which these are defined, are right: the faults after the counts.
fn check_names(
    alloc: Global,
    kind: Kind,
    objects: &[Object],
    externals: &Externals,
    names: &DefinedNames,
) -> Result<(), LinkError>
    requires externals { externals.now.entries ≡ external_names objects.now }
    requires few { length externals.now.entries < 2 ^ 32 }
    ensures { Passes (names_fault kind objects.now externals.now.entries names.now) result }
{
    check_duplicates(alloc, externals, names)?;
    check_types(alloc, objects, externals)?;
    check_main(kind, names)?;
    check_main_type(alloc, kind, externals)
}

/// Whether definitions and types are right: the faults after the counts.
fn check_definitions(
    alloc: Global,
    kind: Kind,
    objects: &[Object],
    externals: &Externals,
) -> Result<(), LinkError>
    requires externals { externals.now.entries ≡ external_names objects.now }
    requires few { length externals.now.entries < 2 ^ 32 }
    ensures { Passes (definitions_fault kind objects.now) result }
{
    let names = defined_names(alloc, objects)?;
    check_names(alloc, kind, objects, externals, &names)
}

/// Whether these objects, which have these external names, make a module; else the first fault.
pub(crate) fn check(
    alloc: Global,
    kind: Kind,
    objects: &[Object],
    externals: &Externals,
) -> Result<(), LinkError>
    requires names { externals.now.entries ≡ external_names objects.now }
    ensures { Passes (option_or (count_fault kind objects.now) (definitions_fault kind objects.now)) result }
{
    check_counts(kind, objects, externals)?;
    check_definitions(alloc, kind, objects, externals)
}
