//! The parts of a module, placed.

use pw_base::Name;
use pw_module::{DepTable, Reloc, Symbol};
use sqlite_items::Items;

/// What a module's file is made of. The data are the slots of external names, then the variables with an initialiser, then
/// the others.
#[derive(Drop)]
pub struct Placed {
    /// The instruction words of the text.
    pub text: Items<u32>,
    /// The names whose addresses the slots hold (gABI, "Global Offset Table").
    pub got: Items<Name>,
    /// The bytes of the slots and the initialised variables.
    pub bytes: Items<u8>,
    /// How many bytes of zeros follow them.
    pub zeros: u64,
    /// By number; the first is none.
    pub symbols: Items<Option<Symbol>>,
    /// By ascending offset.
    pub relocs: Items<Reloc>,
    pub deps: DepTable,
}
