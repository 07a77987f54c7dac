//! What names designate: at file scope, and in a function.

use pw_base::Name;
use pw_tree::{Sig, Ty};

/// What a name at file scope designates.
#[derive(Drop)]
pub enum Kind {
    Function(Sig),
    /// A variable, or an array of this many elements.
    Variable(Ty, Option<u32>),
}

/// A name at file scope, by its first declaration.
#[derive(Drop)]
pub struct File {
    pub name: Name,
    /// Whether its linkage is external.
    pub external: bool,
    pub kind: Kind,
    /// Whether it is defined so far.
    pub defined: bool,
}

/// A parameter or local.
#[derive(Drop)]
pub struct Local {
    pub name: Name,
    pub ty: Ty,
    /// Its number in the function: parameters first, then each declaration in order of text, from 0.
    pub number: u32,
}
