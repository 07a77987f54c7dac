//! The slots of a frame, by their distance from the stack pointer, and held values put there and taken from there.
ghost use Rattle.std.specs.Prelude.{◌≡◌, ◌+◌, ◌<◌, ◌≤◌, [], ◌∷◌};
ghost use Rattle.pw_base.specs.Limits.{locals};
ghost use Rattle.pw_code.specs.Frames.{local_slot, held_slot};
ghost use Rattle.pw_code.specs.Pieces.{hold, load_held};
ghost use Rattle.pw_genexpr.specs.Appends.{Appends};
ghost use Rattle.pw_genexpr.specs.Conditions.{IsWithinLimits};

use crate::put::put_instruction;
use pw_base::NoMemory;
use pw_code::{Frame, Item};
use pw_isa::Inst;
use pw_isa::registers::{A0, SP};

/// The distance of a local's slot in bytes.
pub fn local_slot(number: u32) -> i32
    requires { number ≤ locals }
    ensures { result ≡ local_slot number }
{
    (8 * number) as i32
}

/// The distance of a held value's slot in bytes; that of the number `held` holds the address that the call returns to.
pub fn held_slot(frame: &Frame, number: u32) -> i32
    requires limits { IsWithinLimits frame.now }
    requires there { number ≤ frame.now.held }
    ensures { result ≡ held_slot frame.now number }
{
    (8 * (frame.locals + number)) as i32
}

/// Appends the store of a0 into a held value's slot.
pub fn put_hold(frame: &Frame, number: u32, to: &mut Vec<Item>) -> Result<(), NoMemory>
    requires limits { IsWithinLimits frame.now }
    requires there { number ≤ frame.now.held }
    ensures { Appends (hold frame.now number ∷ []) to.old.items to.new.items result }
{
    put_instruction(
        &Inst::Sd {
            rs1: SP,
            rs2: A0,
            imm: held_slot(frame, number),
        },
        to,
    )
}

/// Appends the loads of `count` registers, from `rd` on, from as many held values' slots, from `number` on.
pub fn put_load_held(
    frame: &Frame,
    number: u32,
    rd: u8,
    count: u8,
    to: &mut Vec<Item>,
) -> Result<(), NoMemory>
    requires limits { IsWithinLimits frame.now }
    requires there { number + count ≤ frame.now.held }
    requires registers { rd + count ≤ 32 }
    ensures { Appends (load_held frame.now number rd count) to.old.items to.new.items result }
{
    if count == 0 {
        return Ok(());
    }
    put_instruction(
        &Inst::Ld {
            rd,
            rs1: SP,
            imm: held_slot(frame, number),
        },
        to,
    )?;
    put_load_held(frame, number + 1, rd + 1, count - 1, to)
}
