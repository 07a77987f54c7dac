//! Compiled functions and units.

use crate::item::Item;
use pw_base::{Name, TypeText};
use pw_tree::{Ext, Ref, TVar};
use sqlite_items::Items;

/// The code of a function.
#[derive(Drop)]
pub struct FunCode {
    pub name: Name,
    /// Whether its linkage is external.
    pub global: bool,
    /// The text of its type.
    pub text: TypeText,
    pub items: Items<Item>,
    /// The functions that its body names, in order of first naming, each once.
    pub deps: Items<Ref>,
}

/// A compiled unit. Its functions stand in order of definition; of its variables those with an initialiser come first, and
/// `Ref::LocalVar` is a number in this list; `names` has the names with external linkage that it defines or uses, in order of
/// first declaration.
#[derive(Drop)]
pub struct Object {
    pub unit: Name,
    pub funs: Items<FunCode>,
    pub vars: Items<TVar>,
    pub names: Items<Ext>,
}
