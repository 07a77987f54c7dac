//! The numbers of a unit's variables in the order of its object, and items that refer to variables by these.
ghost use Rattle.std.specs.Prelude.{◌≡◌, ◌+◌, ◌<◌, ◌^◌, if◌then◌else◌, length, map, filter, IfOk};
ghost use Rattle.pw_code.specs.Objects as objects;
ghost use Rattle.pw_gen.specs.Steps.Numbers.{AreNumbers};
ghost use Rattle.pw_gen.specs.Steps.NextNumbers.{next_after};

use pw_base::NoMemory;
use pw_code::Item;
use pw_tree::{Ref, TVar};
use sqlite_items::Items;
use std::alloc::Global;

/// How many variables have an initialiser.
fn count_initialised(vars: &[TVar]) -> usize
    ensures { result ≡ length (filter objects.is_initialised vars.now) }
{
    vars.iter().filter(|x| x.init.is_some()).count()
}

/// The numbers of the next variables with and without an initialiser.
#[derive(Clone, Copy)]
struct Next {
    initialised: u32,
    others: u32,
}

/// The number of this variable, which is the next.
fn next_number(next: Next, x: &TVar) -> u32
    ensures { result ≡ (if objects.is_initialised x.now then next.initialised else next.others) }
{
    if x.init.is_some() {
        next.initialised
    } else {
        next.others
    }
}

/// The numbers after this variable.
fn after(next: Next, x: &TVar) -> Next
    requires initialised { next.initialised + 1 < 2 ^ 32 }
    requires others { next.others + 1 < 2 ^ 32 }
    ensures { result ≡ next_after next.initialised next.others (objects.is_initialised x.now) }
{
    if x.init.is_some() {
        Next {
            initialised: next.initialised + 1,
            others: next.others,
        }
    } else {
        Next {
            initialised: next.initialised,
            others: next.others + 1,
        }
    }
}

/// The number of each variable in the order of the object.
pub(crate) fn numbers_in_order(alloc: Global, vars: &[TVar]) -> Result<Items<u32>, NoMemory>
    requires { length vars.now < 2 ^ 31 }
    ensures { IfOk result (AreNumbers vars.now) }
{
    let mut numbers = Items::new(alloc);
    let mut next = Next {
        initialised: 0,
        others: count_initialised(vars) as u32,
    };
    for x in vars {
        numbers.push(next_number(next, x))?;
        next = after(next, x);
    }
    Ok(numbers)
}

/// The number of a variable in the order of the object.
fn number_in_order(vars: &[TVar], numbers: &[u32], number: u32) -> u32
    requires few { length vars.now < 2 ^ 31 }
    requires numbers { AreNumbers vars.now numbers.now }
    ensures { result ≡ objects.number_in_order vars.now number }
{
    match numbers.get(number as usize) {
        Some(number) => *number,
        None => count_initialised(vars) as u32,
    }
}

/// A reference in the object.
fn renumber_reference(vars: &[TVar], numbers: &[u32], r: &mut Ref)
    requires few { length vars.now < 2 ^ 31 }
    requires numbers { AreNumbers vars.now numbers.now }
    ensures { r.new ≡ objects.ref_in_order vars.now r.old }
{
    if let Ref::LocalVar(number) = r {
        *number = number_in_order(vars, numbers, *number);
    }
}

/// An item in the object.
fn renumber_item(vars: &[TVar], numbers: &[u32], item: &mut Item)
    requires few { length vars.now < 2 ^ 31 }
    requires numbers { AreNumbers vars.now numbers.now }
    ensures { item.new ≡ objects.item_in_order vars.now item.old }
{
    if let Item::Addr { to, .. } = item {
        renumber_reference(vars, numbers, to);
    }
}

/// The items of a function in the object.
pub(crate) fn renumber(vars: &[TVar], numbers: &[u32], items: &mut [Item])
    requires few { length vars.now < 2 ^ 31 }
    requires numbers { AreNumbers vars.now numbers.now }
    ensures { items.new ≡ map (objects.item_in_order vars.now) items.old }
{
    for item in items.iter_mut() {
        renumber_item(vars, numbers, item);
    }
}
