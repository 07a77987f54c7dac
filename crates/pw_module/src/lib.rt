//! The data of modules, and what the bytes of a file mean as such data.
//!
//! Of the dependency table, `specs/` says what its bytes are, which tables are allowed, and how it is read from
//! its first byte to its last with the first of its faults; the laws below tie the three together. Of several modules, it
//! says in which order they are loaded, what their symbols mean, and which functions are kept.
#![tactic(auto)]

mod dep_error;
mod dep_laws;
mod dep_table;
mod kept_row;
mod module;
mod relocation;
mod symbol;

pub use dep_error::DepError;
pub use dep_laws::{
    a_read_table_is_spelled_so, a_spelled_table_is_read, a_table_or_its_first_fault_is_read,
};
pub use dep_table::{DepTable, FunRec, RootRec, TypeRec};
pub use kept_row::{By, KeptBy, KeptRow};
pub use module::{Def, Module};
pub use relocation::{Reloc, RelocKind};
pub use symbol::{SymKind, Symbol};
