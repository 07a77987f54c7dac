//! What a memory is: regions with their bytes, a seal, and the fetches that it has seen.

ghost use Rattle.std.specs.Prelude.{◌≡◌, [], ◌∷◌, OnOk, OnErr, IfErr, IsTrue};
ghost use Rattle.pw_mem.specs.Memory.{is_width, load, store, fetch, put, zero_bytes, seal};
ghost use Rattle.pw_mem.specs.States.{MemoryState, with_mem, NoFetches, AddsFetches, Writes};
ghost use Rattle.pw_mem.specs.Map.{CanMap, IsFault, mapped};

use crate::errors::{Access, MapError};
use crate::region::Region;

/// A memory: a list of regions with their bytes, whether it is sealed, a count of the fetches since the last `map`, and,
/// where it reports them, the list of their addresses. A memory that ceases to report the list does not report it again
/// before the next `map`. A refusal changes no byte, and only `map` takes memory.
pub trait Memory {
    ghost state: { Self → MemoryState };

    /// Replaces everything by these regions, with all bytes 0, not sealed, no fetch and no address fetched.
    ///
    /// Refusals: the fault of the least faulty region. It is `Unaligned` where the start or the length is no multiple of
    /// 8, the length is 0, or the end (start and length together) is above 2^64-1; else `Overlap` where it meets an
    /// earlier region. `NoMemory` comes only where memory ran out, or of 2^32 regions and more. After a refusal
    /// all is as before.
    fn map(&mut self, regions: &[Region]) -> Result<(), MapError>
        ensures no_fault { OnOk result (CanMap regions.now) }
        ensures mapped { OnOk result ((state self.new).mem ≡ mapped regions.now) }
        ensures no_fetch { OnOk result (NoFetches (state self.new)) }
        ensures fault { IfErr result (IsFault regions.now) }
        ensures as_before { OnErr result (state self.new ≡ state self.old) };

    /// The instruction word at an address. Counts one more fetch, whatever the answer.
    ///
    /// Refusals: `Misaligned` where the address is no multiple of 4, else `Unmapped` where no region holds the four
    /// bytes, else `Denied` where that region is not executable.
    fn fetch(&mut self, at: u64) -> Result<u32, Access>
        ensures word { result ≡ fetch (state self.old).mem at }
        ensures unchanged { (state self.new).mem ≡ (state self.old).mem }
        ensures fetched { AddsFetches (at ∷ []) (state self.old) (state self.new) };

    /// The number of 1, 2, 4 or 8 bytes at an address, little-endian.
    ///
    /// Refusals: `Misaligned` where the address is no multiple of the width, else `Unmapped` where no region holds the
    /// bytes, else `Denied` where that region may not be read.
    fn load(&self, at: u64, width: u8) -> Result<u64, Access>
        requires { IsTrue (is_width width) }
        ensures { result ≡ load (state self.now).mem at width };

    /// Stores the lowest 1, 2, 4 or 8 bytes of a number, little-endian.
    ///
    /// Refusals: `Misaligned` where the address is no multiple of the width, else `Unmapped` where no region holds the
    /// bytes, else `Denied` where that region may not be written, or the memory is sealed and the region executable.
    fn store(&mut self, at: u64, width: u8, value: u64) -> Result<(), Access>
        requires { IsTrue (is_width width) }
        ensures { Writes (store (state self.old).mem at width value) (state self.old) (state self.new) result };

    /// Writes bytes at any address, whatever the rights until the memory is sealed. No bytes change nothing.
    ///
    /// Refusals: `Unmapped` where there are bytes and no region holds their places, else `Denied` where the memory is
    /// sealed and the region may not be written or is executable.
    fn put(&mut self, at: u64, bytes: &[u8]) -> Result<(), Access>
        ensures { Writes (put (state self.old).mem at bytes.now) (state self.old) (state self.new) result };

    /// Sets so many bytes to 0; the answer is that of `put` of so many zeros.
    fn zero(&mut self, at: u64, len: u64) -> Result<(), Access>
        ensures { Writes (zero_bytes (state self.old).mem at len) (state self.old) (state self.new) result };

    /// Seals the memory: from now on its executable regions change no more.
    fn seal(&mut self)
        ensures { state self.new ≡ with_mem (state self.old) (seal (state self.old).mem) };
}
