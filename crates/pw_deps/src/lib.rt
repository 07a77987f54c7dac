//! The dependency table, read from its bytes and written to them.
//!
//! `read` answers the one allowed table whose bytes these are, or the first fault from the first byte to the last; `write`
//! gives the bytes of a table, so that reading gives it back.
#![tactic(auto)]

mod check;
mod field;
mod laws;
mod reading;
mod record;
mod repeat;
mod type_texts;
mod writing;

pub use laws::allowed_tables_can_be_written;
pub use reading::read;
pub use writing::write;
