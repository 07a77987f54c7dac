//! The file header (gABI, "ELF Header").
ghost use Rattle.std.specs.Prelude.{◌≡◌, ◌+◌, ◌≤◌, ◌<◌, ◌++◌, length, take, MatchOption, OnOk, OnErr};
ghost use Rattle.std.specs.Option.{option_map};
ghost use Rattle.pw_base.specs.Structs as plain;
ghost use Rattle.pw_elf.specs.Views.{header_of};

use crate::bytes::ident_at;
use pw_base::NoMemory;
use pw_wire::{put_u16, put_u32, put_u64, u16_at, u32_at, u64_at};

/// The file header (gABI, "ELF Header").
#[derive(Clone, Copy, PartialEq, Eq, Debug)]
pub struct Header {
    /// The identification bytes.
    pub ident: [u8; 16],
    /// The type of the file, `ET_*`.
    pub kind: u16,
    /// The machine, `EM_*`.
    pub machine: u16,
    /// The version of the format, `EV_*`.
    pub version: u32,
    /// The address at which the program starts, or 0.
    pub entry: u64,
    /// The offset of the program headers.
    pub phoff: u64,
    /// The offset of the section headers.
    pub shoff: u64,
    /// Flags of the machine, `EF_*`.
    pub flags: u32,
    /// The bytes of this header.
    pub ehsize: u16,
    /// The bytes of a program header.
    pub phentsize: u16,
    /// How many program headers there are.
    pub phnum: u16,
    /// The bytes of a section header.
    pub shentsize: u16,
    /// How many section headers there are.
    pub shnum: u16,
    /// The section that holds the names of sections.
    pub shstrndx: u16,
}

impl Header {
    /// The bytes of one.
    pub const SIZE: u64 = 64;
}

/// The struct at the offset; `None` exactly where it passes the end.
#[tactic(auto, unfolding(pw_base::specs::Structs::header_at))]
pub fn header_at(bytes: &[u8], off: u64) -> Option<Header>
    ensures value { option_map header_of result ≡ plain.header_at bytes.now off }
    ensures bounds { MatchOption result (length bytes.now < off + 64) (λ _. off + 64 ≤ length bytes.now) }
{
    let ident = ident_at(bytes, off)?;
    let kind = u16_at(bytes, off + 16)?;
    let machine = u16_at(bytes, off + 18)?;
    let version = u32_at(bytes, off + 20)?;
    let entry = u64_at(bytes, off + 24)?;
    let phoff = u64_at(bytes, off + 32)?;
    let shoff = u64_at(bytes, off + 40)?;
    let flags = u32_at(bytes, off + 48)?;
    let ehsize = u16_at(bytes, off + 52)?;
    let phentsize = u16_at(bytes, off + 54)?;
    let phnum = u16_at(bytes, off + 56)?;
    let shentsize = u16_at(bytes, off + 58)?;
    let shnum = u16_at(bytes, off + 60)?;
    let shstrndx = u16_at(bytes, off + 62)?;
    Some(Header {
        ident,
        kind,
        machine,
        version,
        entry,
        phoff,
        shoff,
        flags,
        ehsize,
        phentsize,
        phnum,
        shentsize,
        shnum,
        shstrndx,
    })
}

/// Appends the struct; where memory runs out, what was there stays, and some of the struct may stand after it.
#[tactic(auto, unfolding(pw_base::specs::Structs::header_bytes))]
pub fn put_header(to: &mut Vec<u8>, value: &Header) -> Result<(), NoMemory>
    ensures ok { OnOk result (to.new.items ≡ to.old.items ++ plain.header_bytes (header_of value.now)) }
    ensures err { OnErr result (take (length to.old.items) to.new.items ≡ to.old.items) }
{
    to.extend_from_slice(&value.ident)?;
    put_u16(to, value.kind)?;
    put_u16(to, value.machine)?;
    put_u32(to, value.version)?;
    put_u64(to, value.entry)?;
    put_u64(to, value.phoff)?;
    put_u64(to, value.shoff)?;
    put_u32(to, value.flags)?;
    put_u16(to, value.ehsize)?;
    put_u16(to, value.phentsize)?;
    put_u16(to, value.phnum)?;
    put_u16(to, value.shentsize)?;
    put_u16(to, value.shnum)?;
    put_u16(to, value.shstrndx)?;
    Ok(())
}
