//! The symbols of a module: its entry, its functions and variables, and the external names that it uses.
use pw_base::{Name, TypeText};

/// What a symbol stands for. A function's place counts from the start of the text, a variable's from the start of the data.
#[derive(Clone, Copy, PartialEq, Eq, Debug)]
pub enum SymKind {
    /// A function of the module: where it starts, and its bytes.
    Fun(u64, u64),
    /// A variable of the module: where it starts, and its bytes.
    Var(u64, u64),
    /// A name that the module uses and does not define.
    Undefined,
}

/// A symbol.
#[derive(Drop)]
pub struct Symbol {
    pub name: Name,
    /// Whether its linkage is external.
    pub global: bool,
    pub kind: SymKind,
    /// The text of its type.
    pub text: TypeText,
}
