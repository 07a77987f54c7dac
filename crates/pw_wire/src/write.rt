//! Fields appended to a vector.
ghost use Rattle.std.specs.Prelude.{◌≡◌, ◌++◌, OnOk, OnErr};
ghost use Rattle.pw_base.specs.Field.{field};

use byteorder::{ByteOrder, LittleEndian};
use pw_base::NoMemory;

/// Appends the 2 bytes of the number; where memory runs out, nothing.
pub fn put_u16(to: &mut Vec<u8>, n: u16) -> Result<(), NoMemory>
    ensures ok { OnOk result (to.new.items ≡ to.old.items ++ field 2 n) }
    ensures err { OnErr result (to.new.items ≡ to.old.items) }
{
    let mut bytes = [0u8; 2];
    LittleEndian::write_u16(&mut bytes, n);
    to.extend_from_slice(&bytes)?;
    Ok(())
}

/// Appends the 4 bytes of the number; where memory runs out, nothing.
pub fn put_u32(to: &mut Vec<u8>, n: u32) -> Result<(), NoMemory>
    ensures ok { OnOk result (to.new.items ≡ to.old.items ++ field 4 n) }
    ensures err { OnErr result (to.new.items ≡ to.old.items) }
{
    let mut bytes = [0u8; 4];
    LittleEndian::write_u32(&mut bytes, n);
    to.extend_from_slice(&bytes)?;
    Ok(())
}

/// Appends the 8 bytes of the number; where memory runs out, nothing.
pub fn put_u64(to: &mut Vec<u8>, n: u64) -> Result<(), NoMemory>
    ensures ok { OnOk result (to.new.items ≡ to.old.items ++ field 8 n) }
    ensures err { OnErr result (to.new.items ≡ to.old.items) }
{
    let mut bytes = [0u8; 8];
    LittleEndian::write_u64(&mut bytes, n);
    to.extend_from_slice(&bytes)?;
    Ok(())
}
