//! Items of code: instruction words, and references to symbols.

use pw_tree::Ref;

/// A part of a function's code.
#[derive(Drop)]
pub enum Item {
    /// One instruction word.
    Word(u32),
    /// Two instruction words that put an address into register `rd`, below 32: the one that a slot of the global offset table
    /// holds for an external name, and that of the definition for a static one.
    Addr { rd: u8, to: Ref },
}
