//! A region that is to be mapped, and which regions can be mapped together.

use crate::rights::Rights;

/// A region: its first address, its length in bytes, and what may be done to it.
#[derive(Clone, Copy, PartialEq, Eq, Debug)]
pub struct Region {
    /// The address of its first byte.
    pub start: u64,
    /// How many bytes it has.
    pub len: u64,
    /// What may be done to it.
    pub rights: Rights,
}

impl Region {
    ghost use Rattle.std.specs.Prelude.{◌≡◌};
    ghost use Rattle.pw_mem.specs.Map.{is_aligned, meets};

    /// Whether start and length are multiples of 8, and it has a byte and ends within the addresses.
    pub fn is_aligned(&self) -> bool
        ensures { result ≡ is_aligned self.now }
    {
        self.start % 8 == 0
            && self.len % 8 == 0
            && self.len > 0
            && self.len <= u64::MAX - self.start
    }

    /// Whether the two have an address in common.
    pub fn meets(&self, other: &Region) -> bool
        ensures { result ≡ meets self.now other.now }
    {
        (self.start < other.start || self.start - other.start < other.len)
            && (other.start < self.start || other.start - self.start < self.len)
    }
}
