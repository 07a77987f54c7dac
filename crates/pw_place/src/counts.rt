//! The counts of a module that have limits. A count that is no number of 64 bits is none: so many parts fit in no memory.
ghost use Rattle.std.specs.Prelude.{◌≡◌, ◌≤◌, ◌^◌, sum_by, MatchOption};
ghost use Rattle.pw_tree.specs.WellTypedUnits as units;
ghost use Rattle.pw_place.specs.Places as places;
ghost use Rattle.pw_place.specs.Refusals as refusals;
ghost use Rattle.pw_place.specs.Sizes as sizes;

use crate::sizes::{entry_bytes, item_bytes, room};
use pw_base::Kind;
use pw_code::{FunCode, Object};
use pw_tree::TVar;

/// The bytes of a function.
fn function_bytes(f: &FunCode) -> Option<u64>
    ensures { MatchOption result (2 ^ 64 ≤ sizes.function_bytes f.now) (λ n. n ≡ sizes.function_bytes f.now) }
{
    let mut bytes: u64 = 0;
    for item in f.items.as_slice() {
        bytes = bytes.checked_add(item_bytes(item))?;
    }
    Some(bytes)
}

/// The bytes of functions.
fn functions_bytes(funs: &[FunCode]) -> Option<u64>
    ensures { MatchOption result (2 ^ 64 ≤ sum_by sizes.function_bytes funs.now) (λ n. n ≡ sum_by sizes.function_bytes funs.now) }
{
    let mut bytes: u64 = 0;
    for f in funs {
        bytes = bytes.checked_add(function_bytes(f)?)?;
    }
    Some(bytes)
}

/// The bytes of all text.
pub(crate) fn text_size(kind: Kind, objects: &[Object]) -> Option<u64>
    ensures { MatchOption result (2 ^ 64 ≤ places.text_size kind objects.now) (λ n. n ≡ places.text_size kind objects.now) }
{
    let mut bytes = entry_bytes(kind);
    for object in objects {
        bytes = bytes.checked_add(functions_bytes(object.funs.as_slice())?)?;
    }
    Some(bytes)
}

/// The elements of variables.
fn elements_of(vars: &[TVar]) -> Option<u64>
    ensures { MatchOption result (2 ^ 64 ≤ sum_by (λ x. units.room x.count) vars.now) (λ n. n ≡ sum_by (λ x. units.room x.count) vars.now) }
{
    let mut count: u64 = 0;
    for x in vars {
        count = count.checked_add(room(x))?;
    }
    Some(count)
}

/// The elements of all variables.
pub(crate) fn elements(objects: &[Object]) -> Option<u64>
    ensures { MatchOption result (2 ^ 64 ≤ refusals.elements objects.now) (λ n. n ≡ refusals.elements objects.now) }
{
    let mut count: u64 = 0;
    for object in objects {
        count = count.checked_add(elements_of(object.vars.as_slice())?)?;
    }
    Some(count)
}
