//! Why bytes are no dependency table: the first fault from the first byte to the last.
ghost use Rattle.std.specs.Prelude.{◌≡◌};
ghost use Rattle.pw_module.specs.declared.dep_error.DepError.TheVariants.{NoMemory};

use std::alloc::AllocError;
use thiserror::Error;

/// Why bytes are no dependency table. Records are numbered from 0 within their kind, and offsets count bytes from the
/// table's start.
#[derive(Clone, Copy, PartialEq, Eq, Debug, Error)]
pub enum DepError {
    /// A field or a string passes the end: its offset.
    #[error("the dependency table ends within the field at {0}")]
    Short(u64),
    /// The version is not one that is read.
    #[error("the dependency table has the version {0}")]
    Version(u32),
    /// The bytes of this unit are no name: its number.
    #[error("the dependency table's unit {0} has no name")]
    BadName(u32),
    /// This record has this number, which is no symbol's or no unit's, or is a type's symbol and does not ascend.
    #[error("the dependency table's record {0} has the index {1}")]
    BadIndex(u32, u32),
    /// This function is empty, has a part of an instruction, starts after the end of its former, or ends past the text; or it
    /// is the last one and ends before the text does. 0 where there is no function and the text is not empty.
    #[error("the dependency table's function {0} has a wrong range")]
    BadRange(u32),
    /// This function starts before its former ends.
    #[error("the dependency table's function {0} overlaps the one before it")]
    Overlap(u32),
    /// The bytes of this type's record are no type string: its number.
    #[error("the dependency table's type {0} is none")]
    BadType(u32),
    /// Bytes are left after the table: where they start.
    #[error("bytes follow the dependency table at {0}")]
    Trailing(u64),
    /// Memory for it was refused.
    #[error("out of memory")]
    NoMemory,
}

impl From<AllocError> for DepError {
    ghost from_gives = { λ _ e. e ≡ NoMemory };

    fn from(_: AllocError) -> DepError {
        DepError::NoMemory
    }
}

impl From<pw_base::NoMemory> for DepError {
    ghost from_gives = { λ _ e. e ≡ NoMemory };

    fn from(_: pw_base::NoMemory) -> DepError {
        DepError::NoMemory
    }
}
