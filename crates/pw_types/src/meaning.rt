//! What a name means.

use crate::names::{File, Local};

/// What a name means at a place.
#[derive(Clone, Copy)]
pub enum Meaning<'a> {
    /// Nothing of this name is visible.
    Missing,
    /// A local.
    Local(&'a Local),
    /// A name at file scope, and its number in the order of first declaration.
    File(usize, &'a File),
}
