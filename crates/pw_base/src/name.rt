//! The name of a module, a unit, a function, a variable or a file.
ghost use Rattle.std.specs.Prelude.{◌≡◌, IfOk};
ghost use Rattle.std.specs.List.{list_all, prefix_len};
ghost use Rattle.pw_base.specs.Name.{ReadsName, IsName, is_name_byte};
ghost use Rattle.pw_base.specs.Tests.{is_name, ReadsWhere};

use crate::limits::Limits;
use crate::no_memory::NoMemory;
use std::alloc::Global;
use std::marker::Model;
use thiserror::Error;

/// A name: 1 to 63 bytes, each a letter, a digit or one of `_ . - /`. Contracts see it as the list of its bytes.
#[derive(Debug, Drop)]
pub struct Name {
    bytes: Vec<u8>,
}

impl Model for Name {
    ghost use Rattle.std.specs.Prelude.{List, ℕ};
    ghost use Rattle.pw_base.specs.Name.{IsName};

    ghost Value = { List ℕ };

    ghost view = { λ name. name.bytes.items };

    ghost invariant = { λ name. IsName name.bytes.items };
}

/// Why bytes are no name.
#[derive(Clone, Copy, PartialEq, Eq, Debug, Error)]
pub enum NameError {
    /// There are none.
    #[error("a name has no bytes")]
    Empty,
    /// There are more than 63: how many.
    #[error("a name has {0} bytes")]
    TooLong(u64),
    /// The first byte that no name has: its place, from 0.
    #[error("a name has a wrong byte at {0}")]
    BadByte(u64),
    /// Memory for it was refused.
    #[error("out of memory")]
    NoMemory,
}

/// Whether names may have this byte.
fn may_stand_in_a_name(byte: u8) -> bool
    ensures { result ≡ is_name_byte byte }
{
    byte.is_ascii_alphanumeric() || byte == b'_' || byte == b'.' || byte == b'-' || byte == b'/'
}

/// Whether names may have each of these bytes.
fn are_good(bytes: &[u8]) -> bool
    ensures { result ≡ list_all is_name_byte bytes.now }
{
    bytes.iter().all(|byte| may_stand_in_a_name(*byte))
}

/// How many bytes stand before the first that no name has.
fn good_bytes(bytes: &[u8]) -> usize
    ensures { result ≡ prefix_len is_name_byte bytes.now }
{
    bytes
        .iter()
        .take_while(|byte| may_stand_in_a_name(**byte))
        .count()
}

impl Name {
    /// The name of these bytes. Refusals: `Empty`, then `TooLong`, then `BadByte`.
    pub fn read(alloc: Global, bytes: &[u8]) -> Result<Name, NameError>
        ensures { ReadsName bytes.now result }
    {
        if bytes.is_empty() {
            return Err(NameError::Empty);
        }
        if bytes.len() > Limits::NAME_BYTES {
            return Err(NameError::TooLong(bytes.len() as u64));
        }
        if !are_good(bytes) {
            return Err(NameError::BadByte(good_bytes(bytes) as u64));
        }
        match Vec::from_slice(alloc, bytes) {
            Ok(bytes) => Ok(Name { bytes }),
            Err(_) => Err(NameError::NoMemory),
        }
    }

    /// The name that these bytes are; `None` exactly where they are none.
    pub fn from_bytes(alloc: Global, bytes: &[u8]) -> Result<Option<Name>, NoMemory>
        ensures { ReadsWhere is_name bytes.now result }
    {
        match Name::read(alloc, bytes) {
            Ok(name) => Ok(Some(name)),
            Err(refusal) => match refusal {
                NameError::NoMemory => Err(NoMemory),
                _ => Ok(None),
            },
        }
    }

    /// Its bytes.
    pub fn bytes(&self) -> &[u8]
        ensures bytes { result.now ≡ self.now }
        ensures name { IsName self.now }
    {
        self.bytes.as_slice()
    }

    /// An equal name.
    pub fn copy(&self, alloc: Global) -> Result<Name, NoMemory>
        ensures { IfOk result (λ copy. copy ≡ self.now) }
    {
        let bytes = Vec::from_slice(alloc, self.bytes.as_slice())?;
        Ok(Name { bytes })
    }
}

#[cfg(test)]
mod tests {
    use super::*;
    use std::test::Fail;

    /// What reading the bytes refuses, if anything.
    fn refusal(alloc: Global, bytes: &[u8]) -> Option<NameError> {
        Name::read(alloc, bytes).err()
    }

    #[test]
    fn a_name_has_1_to_63_letters_digits_and_marks(rt: HostRuntime) -> Result<(), Fail> {
        let alloc = rt.alloc();
        let longest = [b'x'; 63];
        let too_long = [b'x'; 64];
        assert_eq!(rt; refusal(alloc, &longest), None);
        assert_eq!(rt; refusal(alloc, b"../lib-1/main.c_0"), None);
        assert_eq!(rt; refusal(alloc, &too_long), Some(NameError::TooLong(64)));
        assert_eq!(rt; refusal(alloc, b"a b"), Some(NameError::BadByte(1)));
        assert_eq!(rt; refusal(alloc, b"a\x80"), Some(NameError::BadByte(1)));
        assert_eq!(rt; refusal(alloc, b""), Some(NameError::Empty));
        Ok(())
    }

    #[test]
    fn bytes_are_a_name_or_none(rt: HostRuntime) -> Result<(), Fail> {
        match Name::from_bytes(rt.alloc(), b"main.c")? {
            Some(name) => assert_eq!(rt; name.bytes(), b"main.c".as_slice()),
            None => assert!(rt; false),
        }
        assert!(rt; Name::from_bytes(rt.alloc(), b"a b")?.is_none());
        Ok(())
    }

    #[test]
    fn a_copy_has_the_same_bytes(rt: HostRuntime) -> Result<(), Fail> {
        let name = Name::read(rt.alloc(), b"main.c")?;
        let copy = name.copy(rt.alloc())?;
        assert_eq!(rt; copy.bytes(), b"main.c".as_slice());
        Ok(())
    }
}
