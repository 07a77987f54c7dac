//! Single bytes and the identification bytes at an offset.
ghost use Rattle.std.specs.Prelude.{◌≡◌, ◌+◌, ◌≤◌, ◌<◌, ◌++◌, length, MatchOption, OnOk, OnErr};
ghost use Rattle.std.specs.Option.{option_map};
ghost use Rattle.pw_base.specs.Field.{field, field_at};
ghost use Rattle.pw_base.specs.Structs.{slice_at};

use pw_base::NoMemory;

/// How many bytes identify a file (gABI, "ELF Identification", EI_NIDENT).
pub const IDENT_SIZE: usize = 16;

/// The byte at the offset; `None` exactly where it passes the end.
pub(crate) fn u8_at(bytes: &[u8], off: u64) -> Option<u8>
    ensures value { result ≡ field_at 1 bytes.now off }
    ensures bounds { MatchOption result (length bytes.now < off + 1) (λ _. off + 1 ≤ length bytes.now) }
{
    let at = off as usize;
    if bytes.len() <= at {
        return None;
    }
    Some(bytes[at])
}

/// Appends the byte.
pub(crate) fn put_u8(to: &mut Vec<u8>, n: u8) -> Result<(), NoMemory>
    ensures ok { OnOk result (to.new.items ≡ to.old.items ++ field 1 n) }
    ensures err { OnErr result (to.new.items ≡ to.old.items) }
{
    to.extend_from_slice(&[n])?;
    Ok(())
}

/// The identification bytes at the offset; `None` exactly where they pass the end.
pub(crate) fn ident_at(bytes: &[u8], off: u64) -> Option<[u8; 16]>
    ensures value { result ≡ slice_at 16 bytes.now off }
    ensures bounds { MatchOption result (length bytes.now < off + 16) (λ _. off + 16 ≤ length bytes.now) }
{
    let end = (off as usize).checked_add(IDENT_SIZE)?;
    if bytes.len() < end {
        return None;
    }
    let mut ident = [0u8; 16];
    ident.copy_from_slice(&bytes[off as usize..end]);
    Some(ident)
}
