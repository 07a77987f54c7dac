//! A region with its bytes in one vector.

ghost use Rattle.std.specs.Prelude.{◌≡◌, ◌+◌, ◌^◌, ◌<◌, ◌≤◌, true, length, map, IfOk};
ghost use Rattle.pw_base.specs.Bytes.{le};
ghost use Rattle.pw_mem.specs.Regions.{holds, bytes_at, with_bytes};
ghost use Rattle.pw_mem.specs.Memory.{zeros, may_store, may_put};
ghost use Rattle.pw_mem.specs.Map.{fresh};
ghost use Rattle.pw_mem.specs.Flat.{region_of};

use crate::region::Region;
use crate::rights::Rights;
use bitflags::Flags;
use std::alloc::{AllocError, Global};

/// A region: its first address, its bytes, and what may be done to it.
#[derive(Drop)]
pub(crate) struct FlatRegion {
    start: u64,
    bytes: Vec<u8>,
    rights: Rights,
}

/// The number that bytes say, the lowest first.
fn number(bytes: &[u8]) -> u64
    requires { length bytes.now ≤ 8 }
    ensures value { result ≡ le bytes.now }
    ensures bound { result < 256 ^ length bytes.now }
{
    match bytes {
        [] => 0,
        [low, high @ ..] => u64::from(*low) + 256 * number(high),
    }
}

impl FlatRegion {
    /// The region as it is mapped, all its bytes 0.
    #[tactic(auto, unfolding(crate::specs::Memory::zeros))]
    pub(crate) fn fresh(alloc: Global, region: &Region) -> Result<FlatRegion, AllocError>
        ensures { IfOk result (λ made. region_of made ≡ fresh region.now) }
    {
        Ok(FlatRegion {
            start: region.start,
            bytes: vec![in alloc; 0; region.len as usize]?,
            rights: region.rights,
        })
    }

    /// Whether it holds all of the `len` bytes from an address on.
    pub(crate) fn holds(&self, at: u64, len: u64) -> bool
        ensures { result ≡ holds at len (region_of self.now) }
    {
        let size = self.bytes.len() as u64;
        self.start <= at && at - self.start <= size && len <= size - (at - self.start)
    }

    /// Whether it may be read.
    pub(crate) fn is_readable(&self) -> bool
        ensures { result ≡ (region_of self.now).read }
    {
        self.rights.contains(Rights::READ)
    }

    /// Whether its words are instructions.
    pub(crate) fn is_executable(&self) -> bool
        ensures { result ≡ (region_of self.now).execute }
    {
        self.rights.contains(Rights::EXECUTE)
    }

    /// Whether a store is allowed: sealed, an executable region is not written.
    pub(crate) fn may_store(&self, sealed: bool) -> bool
        ensures { result ≡ may_store sealed (region_of self.now) }
    {
        self.rights.contains(Rights::WRITE) && !(sealed && self.is_executable())
    }

    /// Whether bytes may be put: before the seal always, then where a store may be.
    pub(crate) fn may_put(&self, sealed: bool) -> bool
        ensures { result ≡ may_put sealed (region_of self.now) }
    {
        !sealed || self.may_store(sealed)
    }

    /// The number of `width` bytes at an address.
    pub(crate) fn number_at(&self, at: u64, width: u64) -> u64
        requires held { holds at width (region_of self.now) ≡ true }
        requires small { width ≤ 8 }
        ensures value { result ≡ le (bytes_at (region_of self.now) at width) }
        ensures bound { result < 256 ^ width }
    {
        let place = (at - self.start) as usize;
        number(&self.bytes.as_slice()[place..place + width as usize])
    }

    /// Writes bytes at an address.
    pub(crate) fn write(&mut self, at: u64, bytes: &[u8])
        requires { holds at (length bytes.now) (region_of self.old) ≡ true }
        ensures { region_of self.new ≡ with_bytes (region_of self.old) at bytes.now }
    {
        let place = (at - self.start) as usize;
        self.bytes[place..place + bytes.len()].copy_from_slice(bytes);
    }

    /// Sets `len` bytes from an address on to 0.
    #[tactic(auto, unfolding(crate::specs::Memory::zeros))]
    pub(crate) fn clear(&mut self, at: u64, len: u64)
        requires { holds at len (region_of self.old) ≡ true }
        ensures { region_of self.new ≡ with_bytes (region_of self.old) at (zeros len) }
    {
        let place = (at - self.start) as usize;
        self.bytes[place..place + len as usize].fill(0);
    }
}

/// The regions as they are mapped.
pub(crate) fn fresh_regions(
    alloc: Global,
    regions: &[Region],
) -> Result<Vec<FlatRegion>, AllocError>
    ensures { IfOk result (λ made. map region_of made.items ≡ map fresh regions.now) }
{
    let mut made = Vec::new(alloc);
    for region in regions {
        made.push(FlatRegion::fresh(alloc, region)?)?;
    }
    Ok(made)
}
