//! The text and the data of an image are put into a memory.
ghost use Rattle.std.specs.Prelude.{bit_or, ◌≡◌, length};
ghost use Rattle.pw_mem.specs.Map.{CanMap, mapped};
ghost use Rattle.pw_mem.specs.States.{with_mem};
ghost use Rattle.pw_build.specs.Steps.Memories.{Fit, Places, regions_of, memory_of};

use crate::extents::TEXT_START;
use bitflags::Flags;
use pw_base::{Limits, NoMemory};
use pw_mem::{MapError, Memory, Region, Rights};

/// The address of the program's data.
const DATA_START: u64 = Limits::MODULE_SPAN + Limits::DATA_OFFSET;

/// The right to read, and another.
fn readable_and(right: Rights) -> Rights
    ensures { result.0 ≡ bit_or 1 right.0 }
{
    Flags::union(Rights::READ, right)
}

/// The regions of an image: a text and data of so many bytes, and the stack.
fn regions_of(text_len: u64, data_len: u64) -> [Region; 3]
    requires { Fit text_len data_len }
    ensures regions { result ≡ regions_of text_len data_len }
    ensures can_map { CanMap result }
{
    [
        Region {
            start: TEXT_START,
            len: text_len.next_multiple_of(8),
            rights: readable_and(Rights::EXECUTE),
        },
        Region {
            start: DATA_START,
            len: data_len,
            rights: readable_and(Rights::WRITE),
        },
        Region {
            start: Limits::STACK_START,
            len: Limits::STACK_BYTES,
            rights: readable_and(Rights::WRITE),
        },
    ]
}

/// Maps the regions of an image, puts its text and its data into them, and seals. No fetch is counted.
pub(crate) fn place<M: Memory>(mem: &mut M, text: &[u8], data: &[u8]) -> Result<(), NoMemory>
    requires { Fit (length text.now) (length data.now) }
    ensures { Places text.now data.now (M.state mem.old) (M.state mem.new) result }
{
    match mem.map(&regions_of(text.len() as u64, data.len() as u64)) {
        Ok(()) => {
            fill(mem, text, data);
            Ok(())
        }
        Err(MapError::NoMemory) => Err(NoMemory),
        // The regions can be mapped.
        Err(MapError::Unaligned(_)) => unreachable!(),
        Err(MapError::Overlap(_)) => unreachable!(),
    }
}

/// Puts the text and the data into fresh regions, and seals. The regions hold them, so neither is refused.
fn fill<M: Memory>(mem: &mut M, text: &[u8], data: &[u8])
    requires fit { Fit (length text.now) (length data.now) }
    requires fresh { (M.state mem.old).mem ≡ mapped (regions_of (length text.now) (length data.now)) }
    ensures { M.state mem.new ≡ with_mem (M.state mem.old) (memory_of text.now data.now) }
{
    let _ = mem.put(TEXT_START, text);
    let _ = mem.put(DATA_START, data);
    mem.seal();
}
