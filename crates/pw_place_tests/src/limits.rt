//! Lists of units that have as much as a module may have, and more.
ghost use Rattle.std.specs.Prelude.{IfOk};
ghost use Rattle.std.specs.List.{AllByRecursion};
ghost use Rattle.pw_code.specs.Soundness.{IsSound};

use crate::answer::is_refused;
use crate::sources::compiled;
use pw_base::Kind;
use pw_code::Object;
use pw_place::merge;
use sqlite_items::Items;
use std::alloc::Global;
use std::process::Abort;
use std::test::Fail;

/// So many units of this text.
fn many(alloc: Global, count: usize, text: &[u8]) -> Result<Items<Object>, Fail>
    ensures { IfOk result (AllByRecursion IsSound) }
{
    let mut objects = Items::new(alloc);
    for n in 0..count {
        let name = format!(in alloc; "u{n}.c")?;
        objects.push(compiled(alloc, name.as_bytes(), text)?)?;
    }
    Ok(objects)
}

/// A text with so many external variables.
fn variables(alloc: Global, count: usize) -> Result<Vec<u8>, Fail> {
    let mut text = Vec::new(alloc);
    for n in 0..count {
        let line = format!(in alloc; "long v{n};\n")?;
        text.extend_from_slice(line.as_bytes())?;
    }
    Ok(text)
}

/// Fails where objects make no library, or one with other zeros than these.
fn has_zeros(
    rt: &impl Abort,
    alloc: Global,
    objects: &Items<Object>,
    zeros: u64,
) -> Result<(), Fail>
    requires { AllByRecursion IsSound objects.now }
{
    match merge(alloc, objects, Kind::Library) {
        Ok(placed) => assert_eq!(rt; placed.zeros, zeros),
        Err(_) => assert!(rt; false),
    }
    Ok(())
}

#[test]
fn a_module_has_at_most_64_units(rt: HostRuntime) -> Result<(), Fail> {
    let alloc = rt.alloc();
    has_zeros(&rt, alloc, &many(alloc, 64, b"static long x;")?, 512)?;
    let more = many(alloc, 65, b"static long x;")?;
    is_refused(
        &rt,
        alloc,
        &more,
        Kind::Library,
        "65 units",
        "one unit more",
    )
}

#[test]
fn units_are_counted_before_definitions(rt: HostRuntime) -> Result<(), Fail> {
    let alloc = rt.alloc();
    let more = many(alloc, 65, b"long x;")?;
    is_refused(
        &rt,
        alloc,
        &more,
        Kind::Program,
        "65 units",
        "x is defined in each, and no main",
    )
}

#[test]
fn a_module_has_at_most_262144_elements(rt: HostRuntime) -> Result<(), Fail> {
    let alloc = rt.alloc();
    has_zeros(
        &rt,
        alloc,
        &many(alloc, 4, b"static long x[65536];")?,
        2_097_152,
    )?;
    let more = many(alloc, 5, b"static long x[65536];")?;
    is_refused(
        &rt,
        alloc,
        &more,
        Kind::Library,
        "327680 elements",
        "an array more",
    )
}

#[test]
fn a_module_has_at_most_16384_external_names(rt: HostRuntime) -> Result<(), Fail> {
    let alloc = rt.alloc();
    let text = variables(alloc, 16_385)?;
    let more = many(alloc, 1, text.as_slice())?;
    is_refused(
        &rt,
        alloc,
        &more,
        Kind::Library,
        "16385 names",
        "one name more",
    )
}
