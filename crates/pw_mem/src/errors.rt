//! Why a memory refuses.

use thiserror::Error;

/// Why a fetch, a load or a store is refused, in the order in which the reasons are looked for.
#[derive(Clone, Copy, PartialEq, Eq, Debug, Error)]
pub enum Access {
    /// The address is not a multiple of the width.
    #[error("the address is not a multiple of the width")]
    Misaligned,
    /// No region holds all of the bytes.
    #[error("no region holds all of the bytes")]
    Unmapped,
    /// The region lacks the right, or the memory is sealed and the region executable.
    #[error("the region does not allow it")]
    Denied,
}

/// Why regions are not mapped. A number is that of the region, from 0.
#[derive(Clone, Copy, PartialEq, Eq, Debug, Error)]
pub enum MapError {
    /// Its start or length is no multiple of 8, its length is 0, or its end is above the last address.
    #[error("region {0} is not aligned")]
    Unaligned(u32),
    /// It meets an earlier one.
    #[error("region {0} meets an earlier one")]
    Overlap(u32),
    /// Memory for them was refused.
    #[error("out of memory")]
    NoMemory,
}
