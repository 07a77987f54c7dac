//! The structs of an ELF64 file, little endian: each read at an offset, and appended field by field in the order of the gABI;
//! the names in a string table; and the numbers that the gABI and the psABI give to kinds, flags, tags and relocations.
#![tactic(auto)]

mod bytes;
pub mod constants;
mod dynamic;
mod header;
mod laws;
mod rela;
mod section;
mod segment;
mod string;
mod symbol;

pub use bytes::IDENT_SIZE;
pub use dynamic::{Dynamic, dynamic_at, put_dynamic};
pub use header::{Header, header_at, put_header};
pub use laws::{constants_are_those_of_the_standards, sizes_are_those_of_the_structs};
pub use rela::{Rela, put_rela, rela_at};
pub use section::{Section, put_section, section_at};
pub use segment::{Segment, put_segment, segment_at};
pub use string::string_at;
pub use symbol::{Sym, put_symbol, symbol_at};
