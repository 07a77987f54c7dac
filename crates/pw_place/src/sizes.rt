//! How many bytes and elements the parts of a module have that is within its limits.
ghost use Rattle.std.specs.Prelude.{◌≡◌, ◌<◌, ◌^◌, if◌then◌else◌};
ghost use Rattle.pw_code.specs.Objects.{is_initialised};
ghost use Rattle.pw_tree.specs.WellTypedUnits as units;
ghost use Rattle.pw_place.specs.Places as places;
ghost use Rattle.pw_place.specs.Sizes as sizes;

use pw_base::Kind;
use pw_code::{FunCode, Item, Object};
use pw_tree::TVar;

/// The bytes of an instruction word.
const WORD_BYTES: u64 = 4;

/// The bytes of an element.
const ELEMENT_BYTES: u64 = 8;

/// The bytes of an item.
pub(crate) fn item_bytes(item: &Item) -> u64
    ensures { result ≡ sizes.item_bytes item.now }
{
    match item {
        Item::Word(_) => WORD_BYTES,
        Item::Addr { .. } => 2 * WORD_BYTES,
    }
}

/// The bytes of a function.
pub(crate) fn function_bytes(f: &FunCode) -> u64
    requires { sizes.function_bytes f.now < 2 ^ 64 }
    ensures { result ≡ sizes.function_bytes f.now }
{
    let mut bytes = 0;
    for item in f.items.as_slice() {
        bytes += item_bytes(item);
    }
    bytes
}

/// The bytes of the entry.
pub(crate) fn entry_bytes(kind: Kind) -> u64
    ensures { result ≡ sizes.code_bytes (sizes.entry_items kind) }
{
    match kind {
        Kind::Program => 6 * WORD_BYTES,
        Kind::Library => 0,
    }
}

/// How many elements a variable has.
pub(crate) fn room(x: &TVar) -> u64
    ensures { result ≡ units.room x.now.count }
{
    match x.count {
        None => 1,
        Some(size) => u64::from(size),
    }
}

/// The bytes of a variable that has an initialiser.
fn initialised_part(x: &TVar) -> u64
    requires { (if is_initialised x.now then sizes.variable_bytes x.now else 0) < 2 ^ 64 }
    ensures { result ≡ (if is_initialised x.now then sizes.variable_bytes x.now else 0) }
{
    if x.init.is_some() {
        ELEMENT_BYTES * room(x)
    } else {
        0
    }
}

/// The bytes of those variables that have an initialiser.
fn initialised_bytes_of(vars: &[TVar]) -> u64
    requires { places.initialised_size vars.now < 2 ^ 64 }
    ensures { result ≡ places.initialised_size vars.now }
{
    let mut bytes = 0;
    for x in vars {
        bytes += initialised_part(x);
    }
    bytes
}

/// The bytes of all units' variables that have an initialiser.
pub(crate) fn initialised_bytes(objects: &[Object]) -> u64
    requires { places.initialised_size (places.variables objects.now) < 2 ^ 64 }
    ensures { result ≡ places.initialised_size (places.variables objects.now) }
{
    let mut bytes = 0;
    for object in objects {
        bytes += initialised_bytes_of(object.vars.as_slice());
    }
    bytes
}
