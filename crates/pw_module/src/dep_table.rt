//! The dependency table: which functions a file has, and on which symbols each of them depends.
use pw_base::{Name, TypeText};
use sqlite_items::Items;

/// A function's record. Functions stand in order of the text, each right after the one before.
#[derive(Drop)]
pub struct FunRec {
    /// Its symbol, by number.
    pub sym: u32,
    /// Its unit, by number; `None` for the entry.
    pub unit: Option<u32>,
    /// Where it starts, in bytes from the start of the text.
    pub start: u32,
    /// Its bytes.
    pub size: u32,
    /// The symbols on which it depends, by number.
    pub deps: Items<u32>,
}

/// A variable whose initialiser names a function, both by the numbers of their symbols.
#[derive(Clone, Copy, PartialEq, Eq, Debug)]
pub struct RootRec {
    /// The variable's symbol.
    pub var: u32,
    /// The function's symbol.
    pub fun: u32,
}

/// The type string of a named symbol. These records ascend by symbol.
#[derive(Drop)]
pub struct TypeRec {
    /// The symbol, by number.
    pub sym: u32,
    /// Its type string.
    pub text: TypeText,
}

/// The dependency table of an object or a module.
#[derive(Drop)]
pub struct DepTable {
    /// The version of the format.
    pub version: u32,
    /// The names of the units.
    pub units: Items<Name>,
    /// The functions, in order of the text.
    pub funs: Items<FunRec>,
    /// The roots, in order of the variables and of their elements.
    pub roots: Items<RootRec>,
    /// The types of named symbols, in order of the symbols.
    pub types: Items<TypeRec>,
}
