//! The machine that the tables try one instruction on: its memory, a processor before that instruction, and ports that
//! offer nothing.

use pw_hart::{End, Hart};
use pw_io::{MemSink, MemSource};
use pw_mem::{FlatMemory, Memory, Region, Rights};
use std::alloc::Global;
use std::test::Fail;

/// Where the text stands.
pub(crate) const TEXT: u64 = 0x0100_0000;
/// Where the instruction stands that is tried, after four others.
pub(crate) const AT: u64 = TEXT + 16;
/// The address of the instruction after it.
pub(crate) const NEXT: u64 = AT + 4;
/// A target two instructions after it.
pub(crate) const FORWARD: u64 = AT + 8;
/// A target two instructions before it.
pub(crate) const BACK: u64 = AT - 8;
/// Where the data stand.
pub(crate) const DATA: u64 = 0x0200_0000;

/// A sealed memory with this text from [`AT`] on, and with the bytes 0x81 to 0x88 as data.
pub(crate) fn memory(alloc: Global, text: &[u8]) -> Result<FlatMemory, Fail> {
    let mut mem = FlatMemory::new(alloc);
    let text_region = Region {
        start: TEXT,
        len: 64,
        rights: Rights::READ | Rights::EXECUTE,
    };
    let data_region = Region {
        start: DATA,
        len: 64,
        rights: Rights::READ | Rights::WRITE,
    };
    mem.map(&[text_region, data_region])?;
    mem.put(AT, text)?;
    mem.put(DATA, &[0x81, 0x82, 0x83, 0x84, 0x85, 0x86, 0x87, 0x88])?;
    mem.seal();
    Ok(mem)
}

/// A processor at [`AT`] with these values of t0, t1, a0 and a7 and so many steps; a1 is 9, and all else is 0.
pub(crate) fn hart(t0: u64, t1: u64, a0: u64, a7: u64, steps: u64) -> Hart {
    let mut x = [0; 32];
    x[5] = t0;
    x[6] = t1;
    x[10] = a0;
    x[11] = 9;
    x[17] = a7;
    Hart { x, pc: AT, steps }
}

/// What a step with an instruction word answers, the processor after it, and the first eight bytes of the data. The input
/// has no bytes, and the output no room.
pub(crate) fn step(
    alloc: Global,
    word: u32,
    before: Hart,
) -> Result<(Option<End>, Hart, u64), Fail> {
    let mut mem = memory(alloc, &word.to_le_bytes())?;
    let mut input = MemSource::new(Vec::new(alloc), Vec::new(alloc));
    let mut out = MemSink::new(alloc, 0, Vec::new(alloc))?;
    let mut after = before;
    let end = after.step(&mut mem, &mut input, &mut out);
    Ok((end, after, mem.load(DATA, 8)?))
}
