//! What became of a function in an image: a row of the report.
use pw_base::Name;

/// A function of an image, and whether it is kept. Rows stand in load order of modules, then in order of the text.
#[derive(Drop)]
pub struct KeptRow {
    /// The module that the function stands in.
    pub module: Name,
    /// The unit that defines it; `None` for the entry.
    pub unit: Option<Name>,
    pub name: Name,
    /// Its bytes.
    pub bytes: u32,
    /// Why it is kept; `None` where it is not.
    pub kept: Option<KeptBy>,
}

/// Why a function is kept.
#[derive(Clone, Copy, PartialEq, Eq, Debug)]
pub struct KeptBy {
    /// How many names lead to it from a root, by the shortest way.
    pub level: u32,
    pub by: By,
}

/// What leads to a kept function.
#[derive(Clone, Copy, PartialEq, Eq, Debug)]
pub enum By {
    /// It is the entry.
    Entry,
    /// An initialised variable points to it.
    Pointer,
    /// The function of the row of this number names it, the first that does one level lower.
    From(u32),
}
