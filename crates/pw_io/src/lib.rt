//! The ports through which a program meets the outside: a source of bytes, a sink of bytes, and a store of files.
#![tactic(auto)]

mod dir_store;
mod errors;
mod mem_sink;
mod mem_source;
mod mem_store;
mod plan;
mod ports;
mod std_sink;
mod std_source;

pub use dir_store::DirStore;
pub use errors::{ReadError, WriteError};
pub use mem_sink::MemSink;
pub use mem_source::MemSource;
pub use mem_store::MemStore;
pub use ports::{Asked, Failed, Next, Sink, Source, Store};
pub use std_sink::StdSink;
pub use std_source::StdSource;
