//! A relocation with an addend (gABI, "Relocation").
ghost use Rattle.std.specs.Prelude.{◌≡◌, ◌+◌, ◌≤◌, ◌<◌, ◌++◌, length, take, MatchOption, OnOk, OnErr};
ghost use Rattle.std.specs.Option.{option_map};
ghost use Rattle.pw_base.specs.Structs as plain;
ghost use Rattle.pw_elf.specs.Views.{rela_of};

use pw_base::NoMemory;
use pw_wire::{put_u64, u64_at};

/// A relocation with an addend (gABI, "Relocation").
#[derive(Clone, Copy, PartialEq, Eq, Debug)]
pub struct Rela {
    /// Where it applies.
    pub offset: u64,
    /// Its symbol and its type.
    pub info: u64,
    /// The number that is added.
    pub addend: i64,
}

impl Rela {
    /// The bytes of one.
    pub const SIZE: u64 = 24;
}

/// The struct at the offset; `None` exactly where it passes the end.
#[tactic(auto, unfolding(pw_base::specs::Structs::rela_at))]
pub fn rela_at(bytes: &[u8], off: u64) -> Option<Rela>
    ensures value { option_map rela_of result ≡ plain.rela_at bytes.now off }
    ensures bounds { MatchOption result (length bytes.now < off + 24) (λ _. off + 24 ≤ length bytes.now) }
{
    let offset = u64_at(bytes, off)?;
    let info = u64_at(bytes, off + 8)?;
    let addend = u64_at(bytes, off + 16)?.cast_signed();
    Some(Rela {
        offset,
        info,
        addend,
    })
}

/// Appends the struct; where memory runs out, what was there stays, and some of the struct may stand after it.
#[tactic(auto, unfolding(pw_base::specs::Structs::rela_bytes))]
pub fn put_rela(to: &mut Vec<u8>, value: &Rela) -> Result<(), NoMemory>
    ensures ok { OnOk result (to.new.items ≡ to.old.items ++ plain.rela_bytes (rela_of value.now)) }
    ensures err { OnErr result (take (length to.old.items) to.new.items ≡ to.old.items) }
{
    put_u64(to, value.offset)?;
    put_u64(to, value.info)?;
    put_u64(to, value.addend.cast_unsigned())?;
    Ok(())
}
