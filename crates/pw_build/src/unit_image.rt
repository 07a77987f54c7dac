//! The image of a program of one unit.
ghost use Rattle.std.specs.Prelude.{◌≡◌};
ghost use Rattle.pw_tree.specs.Units.{TypedUnit};
ghost use Rattle.pw_tree.specs.WellTypedUnits.{IsWellTyped};
ghost use Rattle.pw_code.specs.Objects.{object_of};
ghost use Rattle.pw_build.specs.Built.{Builds};

use crate::image_error::ImageError;
use crate::memory_image::place;
use crate::parts::image_parts;
use pw_code::Object;
use pw_mem::Memory;
use pw_module::KeptRow;
use sqlite_items::Items;
use std::alloc::Global;

/// Puts the image of the program `app` of one unit's object into the memory and seals it: the code of the functions that are kept,
/// zeros in place of every other function, the data and a stack of zeros. No fetch is counted. It answers what became of each
/// function, in order of the text, the entry's first.
///
/// Refusals: the first fault of the link; then `Unbound` exactly where the unit uses a name that it does not define. After a refusal
/// the memory is as before.
pub fn image<M: Memory>(
    alloc: Global,
    object: Object,
    mem: &mut M,
) -> Result<Items<KeptRow>, ImageError>
    ghost unit: { TypedUnit }
    requires typed { IsWellTyped unit }
    requires object { object ≡ object_of object.unit unit }
    ensures { Builds object.unit unit (M.state mem.old) (M.state mem.new) result }
{
    let parts = image_parts(alloc, object)?;
    place(mem, &parts.text, &parts.data)?;
    Ok(parts.rows)
}
