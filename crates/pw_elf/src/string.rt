//! Names in a string table (gABI, "String Table").
ghost use Rattle.std.specs.Prelude.{◌≡◌, IfOk, position, nat_eq};
ghost use Rattle.std.specs.Option.{option_map};
ghost use Rattle.pw_elf.specs.Strings as definition;

use pw_base::{Limits, Name, NoMemory};
use std::alloc::Global;

/// The bytes up to the next zero byte; `None` where none follows.
fn until_zero(bytes: &[u8]) -> Option<&[u8]>
    ensures { option_map (λ text. text.now) result ≡ definition.until_zero bytes.now }
{
    for (i, byte) in bytes.iter().enumerate() {
        if *byte == 0 {
            return Some(&bytes[..i]);
        }
    }
    None
}

/// The name that stands first, up to the next zero byte; `None` exactly where no zero byte follows or the bytes are no name.
///
/// Only as many bytes are looked at as the longest name and its zero byte have.
fn first_name(alloc: Global, bytes: &[u8]) -> Result<Option<Name>, NoMemory>
    ensures { IfOk result (λ name. name ≡ definition.name_in (definition.until_zero bytes.now)) }
{
    let longest = (Limits::NAME_BYTES + 1).min(bytes.len());
    match until_zero(&bytes[..longest]) {
        Some(text) => Name::from_bytes(alloc, text),
        None => Ok(None),
    }
}

/// The name at the offset, up to the next zero byte; `None` exactly where no zero byte follows or the bytes are no name.
///
/// It takes no more time where the zero byte is far away.
#[tactic(auto, unfolding(crate::specs::Strings::string_at))]
pub fn string_at(alloc: Global, bytes: &[u8], off: u64) -> Result<Option<Name>, NoMemory>
    ensures { IfOk result (λ name. name ≡ definition.string_at bytes.now off) }
{
    if (bytes.len() as u64) < off {
        return Ok(None);
    }
    first_name(alloc, &bytes[off as usize..])
}
