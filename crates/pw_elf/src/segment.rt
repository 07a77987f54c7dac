//! A program header (gABI, "Program Header").
ghost use Rattle.std.specs.Prelude.{◌≡◌, ◌+◌, ◌≤◌, ◌<◌, ◌++◌, length, take, MatchOption, OnOk, OnErr};
ghost use Rattle.std.specs.Option.{option_map};
ghost use Rattle.pw_base.specs.Structs as plain;
ghost use Rattle.pw_elf.specs.Views.{segment_of};

use pw_base::NoMemory;
use pw_wire::{put_u32, put_u64, u32_at, u64_at};

/// A program header (gABI, "Program Header").
#[derive(Clone, Copy, PartialEq, Eq, Debug)]
pub struct Segment {
    /// Its type, `PT_*`.
    pub kind: u32,
    /// Its rights, `PF_*`.
    pub flags: u32,
    /// The offset of its bytes.
    pub offset: u64,
    /// Its address in memory.
    pub vaddr: u64,
    /// Its physical address.
    pub paddr: u64,
    /// Its bytes in the file.
    pub filesz: u64,
    /// Its bytes in memory.
    pub memsz: u64,
    /// Its alignment.
    pub align: u64,
}

impl Segment {
    /// The bytes of one.
    pub const SIZE: u64 = 56;
}

/// The struct at the offset; `None` exactly where it passes the end.
#[tactic(auto, unfolding(pw_base::specs::Structs::segment_at))]
pub fn segment_at(bytes: &[u8], off: u64) -> Option<Segment>
    ensures value { option_map segment_of result ≡ plain.segment_at bytes.now off }
    ensures bounds { MatchOption result (length bytes.now < off + 56) (λ _. off + 56 ≤ length bytes.now) }
{
    let kind = u32_at(bytes, off)?;
    let flags = u32_at(bytes, off + 4)?;
    let offset = u64_at(bytes, off + 8)?;
    let vaddr = u64_at(bytes, off + 16)?;
    let paddr = u64_at(bytes, off + 24)?;
    let filesz = u64_at(bytes, off + 32)?;
    let memsz = u64_at(bytes, off + 40)?;
    let align = u64_at(bytes, off + 48)?;
    Some(Segment {
        kind,
        flags,
        offset,
        vaddr,
        paddr,
        filesz,
        memsz,
        align,
    })
}

/// Appends the struct; where memory runs out, what was there stays, and some of the struct may stand after it.
#[tactic(auto, unfolding(pw_base::specs::Structs::segment_bytes))]
pub fn put_segment(to: &mut Vec<u8>, value: &Segment) -> Result<(), NoMemory>
    ensures ok { OnOk result (to.new.items ≡ to.old.items ++ plain.segment_bytes (segment_of value.now)) }
    ensures err { OnErr result (take (length to.old.items) to.new.items ≡ to.old.items) }
{
    put_u32(to, value.kind)?;
    put_u32(to, value.flags)?;
    put_u64(to, value.offset)?;
    put_u64(to, value.vaddr)?;
    put_u64(to, value.paddr)?;
    put_u64(to, value.filesz)?;
    put_u64(to, value.memsz)?;
    put_u64(to, value.align)?;
    Ok(())
}
