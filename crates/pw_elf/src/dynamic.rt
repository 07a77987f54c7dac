//! An entry of the dynamic section (gABI, "Dynamic Section").
ghost use Rattle.std.specs.Prelude.{◌≡◌, ◌+◌, ◌≤◌, ◌<◌, ◌++◌, length, take, MatchOption, OnOk, OnErr};
ghost use Rattle.std.specs.Option.{option_map};
ghost use Rattle.pw_base.specs.Structs as plain;
ghost use Rattle.pw_elf.specs.Views.{dynamic_of};

use pw_base::NoMemory;
use pw_wire::{put_u64, u64_at};

/// An entry of the dynamic section (gABI, "Dynamic Section").
#[derive(Clone, Copy, PartialEq, Eq, Debug)]
pub struct Dynamic {
    /// What it says, `DT_*`.
    pub tag: i64,
    /// The number or address that it says.
    pub val: u64,
}

impl Dynamic {
    /// The bytes of one.
    pub const SIZE: u64 = 16;
}

/// The struct at the offset; `None` exactly where it passes the end.
#[tactic(auto, unfolding(pw_base::specs::Structs::dynamic_at))]
pub fn dynamic_at(bytes: &[u8], off: u64) -> Option<Dynamic>
    ensures value { option_map dynamic_of result ≡ plain.dynamic_at bytes.now off }
    ensures bounds { MatchOption result (length bytes.now < off + 16) (λ _. off + 16 ≤ length bytes.now) }
{
    let tag = u64_at(bytes, off)?.cast_signed();
    let val = u64_at(bytes, off + 8)?;
    Some(Dynamic { tag, val })
}

/// Appends the struct; where memory runs out, what was there stays, and some of the struct may stand after it.
#[tactic(auto, unfolding(pw_base::specs::Structs::dynamic_bytes))]
pub fn put_dynamic(to: &mut Vec<u8>, value: &Dynamic) -> Result<(), NoMemory>
    ensures ok { OnOk result (to.new.items ≡ to.old.items ++ plain.dynamic_bytes (dynamic_of value.now)) }
    ensures err { OnErr result (take (length to.old.items) to.new.items ≡ to.old.items) }
{
    put_u64(to, value.tag.cast_unsigned())?;
    put_u64(to, value.val)?;
    Ok(())
}
