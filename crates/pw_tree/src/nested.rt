//! Copies of what holds values of its own type, in a loop: such values nest deeper than the stack may.
ghost use Rattle.std.specs.Prelude.{◌≡◌, IfOk, List, length, take, slice_get, option_copied, [], ◌∷◌, ◌++◌};
ghost use Rattle.pw_tree.specs.Steps.Nested.{GoesOn, IsPopped, PassesPart, put_before};

use pw_base::NoMemory;
use sqlite_items::{Boxed, Items};
use std::alloc::Global;

/// What holds values of its own type.
pub(crate) trait Nested: Drop {
    /// The values of this type that stand right in it, in order.
    ghost parts: { Self → List Self };

    /// The part of this number, from 0.
    fn part(&self, number: usize) -> Option<&Self>
        ensures { option_copied result ≡ slice_get (parts self.now) number };

    /// An equal value, around copies of its parts.
    fn around(&self, alloc: Global, copies: Items<Self>) -> Result<Self, NoMemory>
        requires { copies ≡ parts self.now }
        ensures { IfOk result (λ copy. copy ≡ self.now) };
}

/// A value that is being copied, and the copies of its first parts.
#[derive(Drop)]
struct Frame<'a, T> {
    of: &'a T,
    done: Items<T>,
}

/// What is at hand: a value to be copied, or the copy of one.
#[derive(Drop)]
enum Turn<'a, T> {
    Down(&'a T),
    Up(T),
}

/// Goes on with the next part of a value, or leaves it with its copy.
fn go_on<'a, T: Nested>(
    alloc: Global,
    frames: &mut Items<Frame<'a, T>>,
    frame: Frame<'a, T>,
) -> Result<Turn<'a, T>, NoMemory>
    requires { frame.done ≡ take (length frame.done) (T.parts frame.of.now) }
    ensures { IfOk result (GoesOn T.parts frame.entry frames.old frames.new) }
{
    match frame.of.part(frame.done.len()) {
        Some(part) => {
            frames.push(frame)?;
            Ok(Turn::Down(part))
        }
        None => Ok(Turn::Up(frame.of.around(alloc, frame.done)?)),
    }
}

/// An equal value.
#[tactic(auto, using(crate::proofs::Nesting::copied, crate::proofs::Nesting::done_of_copy, crate::proofs::Nesting::kept_down, crate::proofs::Nesting::kept_up))]
pub(crate) fn copy_nested<T: Nested>(alloc: Global, root: &T) -> Result<T, NoMemory>
    ensures { IfOk result (λ copy. copy ≡ root.now) }
{
    let mut frames = Items::new(alloc);
    let mut turn = Turn::Down(root);
    for _turn in 0..usize::MAX {
        turn = match turn {
            Turn::Down(of) => {
                let done = Items::new(alloc);
                go_on(alloc, &mut frames, Frame { of, done })?
            }
            Turn::Up(copy) => match frames.pop() {
                Some(mut frame) => {
                    frame.done.push(copy)?;
                    go_on(alloc, &mut frames, frame)?
                }
                None => return Ok(copy),
            },
        };
    }
    // No tree in memory has so many parts.
    Err(NoMemory)
}

/// The last copy, in a box of its own.
pub(crate) fn pop_boxed<T: Drop>(alloc: Global, copies: &mut Items<T>) -> Result<Boxed<T>, NoMemory>
    ensures { IfOk result (λ last. copies.old ≡ copies.new ++ last ∷ []) }
{
    match copies.pop() {
        Some(last) => Ok(Boxed::new(alloc, last)?),
        None => Err(NoMemory),
    }
}

/// The last copy in a box of its own, where this part is there.
pub(crate) fn pop_boxed_option<T: Drop>(
    alloc: Global,
    copies: &mut Items<T>,
    part: &Option<Boxed<T>>,
) -> Result<Option<Boxed<T>>, NoMemory>
    ensures { IfOk result (IsPopped copies.old copies.new part.now) }
{
    match part {
        Some(_) => Ok(Some(pop_boxed(alloc, copies)?)),
        None => Ok(None),
    }
}

/// The part of this number, of one that may be there and then others.
pub(crate) fn part_before<'a, T>(part: &'a Option<Boxed<T>>, number: usize) -> Result<&'a T, usize>
    ensures { PassesPart part.now number result }
{
    match part {
        Some(part) if number == 0 => Ok(part.get()),
        Some(_) => Err(number - 1),
        None => Err(number),
    }
}

/// The one part, where it has the number 0.
pub(crate) fn only_part<T>(part: &Boxed<T>, number: usize) -> Option<&T>
    ensures { option_copied result ≡ slice_get (part.now ∷ []) number }
{
    if number == 0 { Some(part.get()) } else { None }
}

/// The part of a `for` of this number, from 0.
pub(crate) fn part_of_for<'a, T>(
    first: &'a Option<Boxed<T>>,
    last: &'a Option<Boxed<T>>,
    body: &'a Boxed<T>,
    number: usize,
) -> Option<&'a T>
    ensures { option_copied result ≡ slice_get (put_before first.now (put_before last.now (body.now ∷ []))) number }
{
    match part_before(first, number) {
        Ok(part) => Some(part),
        Err(number) => match part_before(last, number) {
            Ok(part) => Some(part),
            Err(number) => only_part(body, number),
        },
    }
}

/// The part of an `if` of this number, from 0.
pub(crate) fn part_of_if<'a, T>(
    yes: &'a Boxed<T>,
    no: &'a Option<Boxed<T>>,
    number: usize,
) -> Option<&'a T>
    ensures { option_copied result ≡ slice_get (yes.now ∷ put_before no.now []) number }
{
    match number {
        0 => Some(yes.get()),
        _ => match part_before(no, number - 1) {
            Ok(part) => Some(part),
            Err(_) => None,
        },
    }
}

/// The only copy, in a box of its own.
pub(crate) fn only_copy<T: Drop>(
    alloc: Global,
    part: &Boxed<T>,
    copies: Items<T>,
) -> Result<Boxed<T>, NoMemory>
    requires { copies ≡ part.now ∷ [] }
    ensures { IfOk result (λ copy. copy ≡ part.now) }
{
    let mut copies = copies;
    pop_boxed(alloc, &mut copies)
}
