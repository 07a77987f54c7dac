//! A section header (gABI, "Sections").
ghost use Rattle.std.specs.Prelude.{◌≡◌, ◌+◌, ◌≤◌, ◌<◌, ◌++◌, length, take, MatchOption, OnOk, OnErr};
ghost use Rattle.std.specs.Option.{option_map};
ghost use Rattle.pw_base.specs.Structs as plain;
ghost use Rattle.pw_elf.specs.Views.{section_of};

use pw_base::NoMemory;
use pw_wire::{put_u32, put_u64, u32_at, u64_at};

/// A section header (gABI, "Sections").
#[derive(Clone, Copy, PartialEq, Eq, Debug)]
pub struct Section {
    /// Its name, an offset in the table of section names.
    pub name: u32,
    /// Its type, `SHT_*`.
    pub kind: u32,
    /// Its flags, `SHF_*`.
    pub flags: u64,
    /// Its address in memory, or 0.
    pub addr: u64,
    /// The offset of its contents.
    pub offset: u64,
    /// The bytes of its contents.
    pub size: u64,
    /// A section that belongs to it.
    pub link: u32,
    /// More, by its type.
    pub info: u32,
    /// The alignment of its address.
    pub addralign: u64,
    /// The bytes of an entry, where it has entries.
    pub entsize: u64,
}

impl Section {
    /// The bytes of one.
    pub const SIZE: u64 = 64;
}

/// The struct at the offset; `None` exactly where it passes the end.
#[tactic(auto, unfolding(pw_base::specs::Structs::section_at))]
pub fn section_at(bytes: &[u8], off: u64) -> Option<Section>
    ensures value { option_map section_of result ≡ plain.section_at bytes.now off }
    ensures bounds { MatchOption result (length bytes.now < off + 64) (λ _. off + 64 ≤ length bytes.now) }
{
    let name = u32_at(bytes, off)?;
    let kind = u32_at(bytes, off + 4)?;
    let flags = u64_at(bytes, off + 8)?;
    let addr = u64_at(bytes, off + 16)?;
    let offset = u64_at(bytes, off + 24)?;
    let size = u64_at(bytes, off + 32)?;
    let link = u32_at(bytes, off + 40)?;
    let info = u32_at(bytes, off + 44)?;
    let addralign = u64_at(bytes, off + 48)?;
    let entsize = u64_at(bytes, off + 56)?;
    Some(Section {
        name,
        kind,
        flags,
        addr,
        offset,
        size,
        link,
        info,
        addralign,
        entsize,
    })
}

/// Appends the struct; where memory runs out, what was there stays, and some of the struct may stand after it.
#[tactic(auto, unfolding(pw_base::specs::Structs::section_bytes))]
pub fn put_section(to: &mut Vec<u8>, value: &Section) -> Result<(), NoMemory>
    ensures ok { OnOk result (to.new.items ≡ to.old.items ++ plain.section_bytes (section_of value.now)) }
    ensures err { OnErr result (take (length to.old.items) to.new.items ≡ to.old.items) }
{
    put_u32(to, value.name)?;
    put_u32(to, value.kind)?;
    put_u64(to, value.flags)?;
    put_u64(to, value.addr)?;
    put_u64(to, value.offset)?;
    put_u64(to, value.size)?;
    put_u32(to, value.link)?;
    put_u32(to, value.info)?;
    put_u64(to, value.addralign)?;
    put_u64(to, value.entsize)?;
    Ok(())
}
