//! Little-endian fields of 2, 4 and 8 bytes, read at an offset and appended (gABI, "Data Encoding", ELFDATA2LSB).
//!
//! A reader answers `None` exactly where the field passes the end, and takes no memory. A writer leaves the vector as it was
//! where memory runs out.
#![tactic(auto)]

mod read;
mod write;

pub use read::{u16_at, u32_at, u64_at};
pub use write::{put_u16, put_u32, put_u64};
