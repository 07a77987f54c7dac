//! A module: what a program or a shared library holds once it is read.
use crate::dep_table::DepTable;
use crate::relocation::Reloc;
use crate::symbol::Symbol;
use pw_base::Name;
use sqlite_items::Items;

/// A module, as its file says it or as its parts are placed. Its text is loaded at one place and its data at another, each at a
/// fixed distance from the module's base.
#[derive(Drop)]
pub struct Module {
    /// The name by which others need it (gABI, DT_SONAME).
    pub soname: Name,
    /// The names of the modules that it needs, in order (gABI, DT_NEEDED).
    pub needs: Items<Name>,
    /// The instruction words of the text.
    pub text: Items<u32>,
    /// The bytes of the data that the file has: the slots of external names and the initialised variables.
    pub bytes: Items<u8>,
    /// How many bytes of zeros follow them.
    pub zeros: u64,
    /// How many bytes the segment of headers and tables has.
    pub meta: u64,
    /// By number; the first is none.
    pub symbols: Items<Option<Symbol>>,
    /// By ascending offset.
    pub relocs: Items<Reloc>,
    pub deps: DepTable,
    /// The record of the function at which a program begins, by number.
    pub entry: Option<u32>,
}

/// What a symbol means among several modules: the module and the symbol that defines it, both by number.
#[derive(Clone, Copy, PartialEq, Eq, Debug)]
pub struct Def {
    pub module: u32,
    pub sym: u32,
}
