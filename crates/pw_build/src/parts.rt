//! The parts of the image of a program of one object: the rows of its functions, and the bytes of its text and of its data.
ghost use Rattle.std.specs.Prelude.{◌≡◌, ◌<◌, ◌^◌, None, [], ◌∷◌, length, codes, IfOk};
ghost use Rattle.pw_base.specs.declared.kinds.Kind.TheVariants.{Program};
ghost use Rattle.pw_code.specs.Soundness.{IsSound};
ghost use Rattle.pw_place.specs.Merging.{placed_of};
ghost use Rattle.pw_place.specs.Refusals.{link_fault};
ghost use Rattle.pw_image.specs.Rows.{program_name};
ghost use Rattle.pw_build.specs.Steps.Parts.{IsWhole, AreLevelsOf, ArePartsOf, Links, Binds, MakesParts};

use crate::image_error::ImageError;
use pw_base::{Kind, Name, NoMemory};
use pw_close::{Levels, close};
use pw_code::Object;
use pw_image::{first_undefined, graph_of, kept_text, relocated_data, rows};
use pw_module::{DepTable, KeptRow};
use pw_place::{LinkError, Placed, merge};
use sqlite_items::Items;
use std::alloc::Global;

/// What the image of a program is made of.
#[derive(Drop)]
pub(crate) struct Parts {
    /// What became of each function.
    pub rows: Items<KeptRow>,
    /// The bytes of the text, with zeros in place of each function that is not kept.
    pub text: Vec<u8>,
    /// The bytes of the data, with the addresses that stand in them.
    pub data: Vec<u8>,
}

/// The list of one object.
fn one(alloc: Global, object: Object) -> Result<Items<Object>, NoMemory>
    ensures { IfOk result (λ objects. objects ≡ object ∷ []) }
{
    let mut objects = Items::new(alloc);
    objects.push(object)?;
    Ok(objects)
}

/// The placed program of one object.
fn linked(alloc: Global, object: Object) -> Result<Placed, ImageError>
    requires { IsSound object }
    ensures { Links object result }
{
    let objects = one(alloc, object)?;
    match merge(alloc, &objects, Kind::Program) {
        Ok(placed) => Ok(placed),
        Err(LinkError::NoMemory) => Err(ImageError::NoMemory),
        Err(fault) => Err(ImageError::Link(fault)),
    }
}

/// The name of a program of one unit.
fn program_name(alloc: Global) -> Result<Name, NoMemory>
    ensures { IfOk result (λ name. name ≡ program_name) }
{
    match Name::from_bytes(alloc, b"app")? {
        Some(name) => Ok(name),
        None => unreachable!(),
    }
}

/// The levels of the functions of a dependency table.
fn levels_of(alloc: Global, table: &DepTable) -> Result<Levels, NoMemory>
    requires some { 0 < length table.now.funs }
    requires few { length table.now.funs < 2 ^ 32 }
    ensures { IfOk result (AreLevelsOf table.now) }
{
    let graph = graph_of(alloc, table)?;
    close(alloc, &graph)
}

/// The parts of a placed program: what is kept of its text, its data, and the rows.
fn parts_of(alloc: Global, placed: &Placed) -> Result<Parts, NoMemory>
    requires { IsWhole placed.now }
    ensures { IfOk result (ArePartsOf placed.now) }
{
    let levels = levels_of(alloc, &placed.deps)?;
    let text = kept_text(
        alloc,
        placed.text.as_slice(),
        placed.deps.funs.as_slice(),
        &levels,
    )?;
    let data = relocated_data(alloc, placed)?;
    let module = program_name(alloc)?;
    let rows = rows(alloc, &module, placed, &levels)?;
    Ok(Parts { rows, text, data })
}

/// The parts of a placed program that defines each name it uses; else the first name that it does not define.
fn bound(alloc: Global, placed: &Placed) -> Result<Parts, ImageError>
    requires { IsWhole placed.now }
    ensures { Binds placed.now result }
{
    match first_undefined(alloc, placed.symbols.as_slice())? {
        Some(name) => Err(ImageError::Unbound(name)),
        None => Ok(parts_of(alloc, placed)?),
    }
}

/// The parts of the image of the program of one object.
///
/// Refusals: the first fault of the link; then the first name that is used and not defined.
pub(crate) fn image_parts(alloc: Global, object: Object) -> Result<Parts, ImageError>
    requires sound { IsSound object }
    requires whole { link_fault Program (object ∷ []) ≡ None → IsWhole (placed_of Program (object ∷ [])) }
    ensures { MakesParts object result }
{
    let placed = linked(alloc, object)?;
    bound(alloc, &placed)
}
