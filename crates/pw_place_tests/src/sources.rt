//! The objects of units that are given as texts.
ghost use Rattle.std.specs.Prelude.{IfOk};
ghost use Rattle.std.specs.List.{AllByRecursion};
ghost use Rattle.pw_code.specs.Soundness.{IsSound};

use pw_base::Name;
use pw_code::Object;
use pw_front::front;
use pw_gen::object;
use sqlite_items::Items;
use std::alloc::Global;
use std::test::Fail;

/// The object of a unit with this name and text.
pub(crate) fn compiled(alloc: Global, name: &[u8], text: &[u8]) -> Result<Object, Fail>
    ensures { IfOk result IsSound }
{
    let name = Name::read(alloc, name)?;
    if text.len() >= u32::MAX as usize {
        return Err("a text is too long".into());
    }
    match front(alloc, text) {
        Ok(unit) => Ok(object(alloc, &unit, &name)?),
        Err(_) => Err("a text is no unit".into()),
    }
}

/// The objects of units with these names and texts.
pub(crate) fn objects(
    alloc: Global,
    units: &[(&'static str, &'static str)],
) -> Result<Items<Object>, Fail>
    ensures { IfOk result (AllByRecursion IsSound) }
{
    let mut objects = Items::new(alloc);
    for (name, text) in units {
        objects.push(compiled(alloc, name.as_bytes(), text.as_bytes())?)?;
    }
    Ok(objects)
}
