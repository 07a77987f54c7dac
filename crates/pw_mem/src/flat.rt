//! A memory that keeps one vector a region.

ghost use Rattle.std.specs.Prelude.{◌≡◌, [], None, MatchResult, length, position, false};
ghost use Rattle.pw_mem.specs.declared.errors.Access.TheVariants.{Unmapped};
ghost use Rattle.pw_mem.specs.Regions.{holds, region_at, written};
ghost use Rattle.pw_mem.specs.Memory.{zeros, with_regions};
ghost use Rattle.pw_mem.specs.States.{with_mem};
ghost use Rattle.pw_mem.specs.Flat.{region_of, mem_of, flat_state};
ghost use Rattle.pw_mem.specs.Steps.Found.{IsFound};

use crate::errors::{Access, MapError};
use crate::faults::check;
use crate::flat_region::{FlatRegion, fresh_regions};
use crate::memory::Memory;
use crate::region::Region;
use std::alloc::Global;

/// A memory that keeps one vector a region. It does not report the addresses of its fetches.
#[derive(Drop)]
pub struct FlatMemory {
    alloc: Global,
    regions: Vec<FlatRegion>,
    sealed: bool,
    fetches: u64,
}

impl FlatMemory {
    /// A memory with no region. Takes no memory.
    pub fn new(alloc: Global) -> FlatMemory
        ensures { flat_state result ≡ record { mem = record { regions = []; sealed = false }; fetches = 0; fetched = None } }
    {
        FlatMemory {
            alloc,
            regions: Vec::new(alloc),
            sealed: false,
            fetches: 0,
        }
    }

    /// The number of the first region that holds these bytes.
    fn position(&self, at: u64, len: u64) -> Option<usize>
        ensures { result ≡ position (λ region. holds at len (region_of region)) self.now.regions.items }
    {
        self.regions.iter().position(|region| region.holds(at, len))
    }

    /// The same, or the refusal.
    fn find(&self, at: u64, len: u64) -> Result<usize, Access>
        ensures { MatchResult result (IsFound self.now at len)
            (λ e. (e ≡ Unmapped) × (region_at (mem_of self.now).regions at len ≡ None)) }
    {
        self.position(at, len).ok_or(Access::Unmapped)
    }

    /// Writes bytes into the region with this number, which holds their places.
    fn write(&mut self, i: usize, at: u64, bytes: &[u8])
        requires { IsFound self.old at (length bytes.now) i }
        ensures { flat_state self.new
            ≡ with_mem (flat_state self.old) (with_regions (mem_of self.old) (written (mem_of self.old).regions at bytes.now)) }
    {
        self.regions[i].write(at, bytes);
    }

    /// Sets bytes of the region with this number, which holds their places, to 0.
    fn clear(&mut self, i: usize, at: u64, len: u64)
        requires { IsFound self.old at len i }
        ensures { flat_state self.new
            ≡ with_mem (flat_state self.old) (with_regions (mem_of self.old) (written (mem_of self.old).regions at (zeros len))) }
    {
        self.regions[i].clear(at, len);
    }
}

impl Memory for FlatMemory {
    ghost state = { flat_state };

    fn map(&mut self, regions: &[Region]) -> Result<(), MapError> {
        check(regions)?;
        let made = fresh_regions(self.alloc, regions).map_err(|_| MapError::NoMemory)?;
        self.regions = made;
        self.sealed = false;
        self.fetches = 0;
        Ok(())
    }

    fn fetch(&mut self, at: u64) -> Result<u32, Access> {
        self.fetches = self.fetches.saturating_add(1);
        if at % 4 != 0 {
            return Err(Access::Misaligned);
        }
        let region = &self.regions[self.find(at, 4)?];
        if !region.is_executable() {
            return Err(Access::Denied);
        }
        Ok(region.number_at(at, 4) as u32)
    }

    fn load(&self, at: u64, width: u8) -> Result<u64, Access> {
        let width = u64::from(width);
        if at % width != 0 {
            return Err(Access::Misaligned);
        }
        let region = &self.regions[self.find(at, width)?];
        if !region.is_readable() {
            return Err(Access::Denied);
        }
        Ok(region.number_at(at, width))
    }

    fn store(&mut self, at: u64, width: u8, value: u64) -> Result<(), Access> {
        if at % u64::from(width) != 0 {
            return Err(Access::Misaligned);
        }
        let i = self.find(at, u64::from(width))?;
        if !self.regions[i].may_store(self.sealed) {
            return Err(Access::Denied);
        }
        self.write(i, at, &value.to_le_bytes()[..width as usize]);
        Ok(())
    }

    fn put(&mut self, at: u64, bytes: &[u8]) -> Result<(), Access> {
        if bytes.is_empty() {
            return Ok(());
        }
        let i = self.find(at, bytes.len() as u64)?;
        if !self.regions[i].may_put(self.sealed) {
            return Err(Access::Denied);
        }
        self.write(i, at, bytes);
        Ok(())
    }

    #[tactic(auto, using(crate::proofs::Zeros::length_of_zeros))]
    fn zero(&mut self, at: u64, len: u64) -> Result<(), Access> {
        if len == 0 {
            return Ok(());
        }
        let i = self.find(at, len)?;
        if !self.regions[i].may_put(self.sealed) {
            return Err(Access::Denied);
        }
        self.clear(i, at, len);
        Ok(())
    }

    fn seal(&mut self) {
        self.sealed = true;
    }
}
