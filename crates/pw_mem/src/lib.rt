//! Memory by regions: what a memory is, as a trait that the loader and the machine are written over, and a memory
//! that keeps one vector a region. An address is in one region or in none; each region has its rights, and once a
//! memory is sealed its executable regions change no more. Only `map` takes memory.
#![tactic(auto)]

mod errors;
mod faults;
mod flat;
mod flat_region;
pub mod laws;
mod memory;
mod recorder;
mod region;
mod rights;

pub use errors::{Access, MapError};
pub use flat::FlatMemory;
pub use memory::Memory;
pub use recorder::Recorder;
pub use region::Region;
pub use rights::Rights;
