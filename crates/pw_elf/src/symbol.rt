//! A symbol (gABI, "Symbol Table").
ghost use Rattle.std.specs.Prelude.{◌≡◌, ◌+◌, ◌≤◌, ◌<◌, ◌++◌, length, take, MatchOption, OnOk, OnErr};
ghost use Rattle.std.specs.Option.{option_map};
ghost use Rattle.pw_base.specs.Structs as plain;
ghost use Rattle.pw_elf.specs.Views.{symbol_of};

use crate::bytes::{put_u8, u8_at};
use pw_base::NoMemory;
use pw_wire::{put_u16, put_u32, put_u64, u16_at, u32_at, u64_at};

/// A symbol (gABI, "Symbol Table").
#[derive(Clone, Copy, PartialEq, Eq, Debug)]
pub struct Sym {
    /// Its name, an offset in the string table.
    pub name: u32,
    /// Its binding and its type.
    pub info: u8,
    /// Its visibility.
    pub other: u8,
    /// The section that it is defined in, or 0.
    pub shndx: u16,
    /// Its value: an offset or an address.
    pub value: u64,
    /// Its bytes.
    pub size: u64,
}

impl Sym {
    /// The bytes of one.
    pub const SIZE: u64 = 24;
}

/// The struct at the offset; `None` exactly where it passes the end.
#[tactic(auto, unfolding(pw_base::specs::Structs::symbol_at))]
pub fn symbol_at(bytes: &[u8], off: u64) -> Option<Sym>
    ensures value { option_map symbol_of result ≡ plain.symbol_at bytes.now off }
    ensures bounds { MatchOption result (length bytes.now < off + 24) (λ _. off + 24 ≤ length bytes.now) }
{
    let name = u32_at(bytes, off)?;
    let info = u8_at(bytes, off + 4)?;
    let other = u8_at(bytes, off + 5)?;
    let shndx = u16_at(bytes, off + 6)?;
    let value = u64_at(bytes, off + 8)?;
    let size = u64_at(bytes, off + 16)?;
    Some(Sym {
        name,
        info,
        other,
        shndx,
        value,
        size,
    })
}

/// Appends the struct; where memory runs out, what was there stays, and some of the struct may stand after it.
#[tactic(auto, unfolding(pw_base::specs::Structs::symbol_bytes))]
pub fn put_symbol(to: &mut Vec<u8>, value: &Sym) -> Result<(), NoMemory>
    ensures ok { OnOk result (to.new.items ≡ to.old.items ++ plain.symbol_bytes (symbol_of value.now)) }
    ensures err { OnErr result (take (length to.old.items) to.new.items ≡ to.old.items) }
{
    put_u32(to, value.name)?;
    put_u8(to, value.info)?;
    put_u8(to, value.other)?;
    put_u16(to, value.shndx)?;
    put_u64(to, value.value)?;
    put_u64(to, value.size)?;
    Ok(())
}
