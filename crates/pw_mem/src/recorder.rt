//! A memory that also reports the addresses of its fetches, up to a number of them.

ghost use Rattle.std.specs.Prelude.{◌≡◌, Some, [], IfOk, option_copied, false};
ghost use Rattle.pw_mem.specs.Recording.{recorded_state};

use crate::errors::{Access, MapError};
use crate::flat::FlatMemory;
use crate::memory::Memory;
use crate::region::Region;
use pw_base::NoMemory;
use std::alloc::Global;

/// A memory that keeps one vector a region, and reports the addresses of its fetches since the last `map`, up to
/// [`Recorder::MOST`] of them. It is for whoever tries what a run fetches.
#[derive(Drop)]
pub struct Recorder {
    flat: FlatMemory,
    addresses: Vec<u64>,
    reports: bool,
}

impl Recorder {
    /// How many addresses are reported; with one more the memory ceases to report.
    pub const MOST: usize = 65_536;

    /// A memory with no region and no fetch. Takes the room for the addresses, of 8 bytes each; `NoMemory` where that is
    /// refused.
    pub fn new(alloc: Global) -> Result<Recorder, NoMemory>
        ensures { IfOk result (λ made. recorded_state made
            ≡ record { mem = record { regions = []; sealed = false }; fetches = 0; fetched = Some [] }) }
    {
        Ok(Recorder {
            flat: FlatMemory::new(alloc),
            addresses: Vec::with_capacity(alloc, Recorder::MOST)?,
            reports: true,
        })
    }

    /// The addresses fetched from since the last `map`, in order, where they are reported.
    pub fn reported(&self) -> Option<&[u64]>
        ensures { option_copied result ≡ (recorded_state self.now).fetched }
    {
        if self.reports {
            Some(self.addresses.as_slice())
        } else {
            None
        }
    }
}

impl Memory for Recorder {
    ghost state = { recorded_state };

    fn map(&mut self, regions: &[Region]) -> Result<(), MapError> {
        self.flat.map(regions)?;
        self.addresses.clear();
        self.reports = true;
        Ok(())
    }

    fn fetch(&mut self, at: u64) -> Result<u32, Access> {
        if self.reports
            && (self.addresses.len() >= Recorder::MOST || self.addresses.push(at).is_err())
        {
            self.reports = false;
        }
        self.flat.fetch(at)
    }

    fn load(&self, at: u64, width: u8) -> Result<u64, Access> {
        self.flat.load(at, width)
    }

    fn store(&mut self, at: u64, width: u8, value: u64) -> Result<(), Access> {
        self.flat.store(at, width, value)
    }

    fn put(&mut self, at: u64, bytes: &[u8]) -> Result<(), Access> {
        self.flat.put(at, bytes)
    }

    fn zero(&mut self, at: u64, len: u64) -> Result<(), Access> {
        self.flat.zero(at, len)
    }

    fn seal(&mut self) {
        self.flat.seal();
    }
}
