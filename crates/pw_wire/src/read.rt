//! Fields read at an offset.
ghost use Rattle.std.specs.Prelude.{◌≡◌, ◌+◌, ◌≤◌, ◌<◌, length, drop, MatchOption};
ghost use Rattle.pw_base.specs.Field.{field_at};

use byteorder::{ByteOrder, LittleEndian};

/// The bytes from an offset on, where there are at least `width` of them.
fn from_offset(bytes: &[u8], off: u64, width: usize) -> Option<&[u8]>
    requires { width ≤ 8 }
    ensures { MatchOption result (length bytes.now < off + width) (λ rest. (rest.now ≡ drop off bytes.now) × (off + width ≤ length bytes.now)) }
{
    let end = (off as usize).checked_add(width)?;
    if bytes.len() < end {
        return None;
    }
    Some(&bytes[off as usize..])
}

/// The number in the 2 bytes at the offset; `None` exactly where they pass the end.
pub fn u16_at(bytes: &[u8], off: u64) -> Option<u16>
    ensures value { result ≡ field_at 2 bytes.now off }
    ensures bounds { MatchOption result (length bytes.now < off + 2) (λ _. off + 2 ≤ length bytes.now) }
{
    let rest = from_offset(bytes, off, 2)?;
    Some(LittleEndian::read_u16(rest))
}

/// The number in the 4 bytes at the offset; `None` exactly where they pass the end.
pub fn u32_at(bytes: &[u8], off: u64) -> Option<u32>
    ensures value { result ≡ field_at 4 bytes.now off }
    ensures bounds { MatchOption result (length bytes.now < off + 4) (λ _. off + 4 ≤ length bytes.now) }
{
    let rest = from_offset(bytes, off, 4)?;
    Some(LittleEndian::read_u32(rest))
}

/// The number in the 8 bytes at the offset; `None` exactly where they pass the end.
pub fn u64_at(bytes: &[u8], off: u64) -> Option<u64>
    ensures value { result ≡ field_at 8 bytes.now off }
    ensures bounds { MatchOption result (length bytes.now < off + 8) (λ _. off + 8 ≤ length bytes.now) }
{
    let rest = from_offset(bytes, off, 8)?;
    Some(LittleEndian::read_u64(rest))
}
