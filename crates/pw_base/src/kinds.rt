//! What a module is, and how its image is made.

/// What a module is: the one that a run begins in, or one that others need.
#[derive(Clone, Copy, PartialEq, Eq, Debug)]
pub enum Kind {
    /// It has an entry, which calls `main`.
    Program,
    /// It has functions and variables for other modules.
    Library,
}

/// Which functions keep their code in memory.
#[derive(Clone, Copy, PartialEq, Eq, Debug)]
pub enum Mode {
    /// Those that the entry and the initialised pointers can reach; zeros stand in place of the others.
    Piecewise,
    /// All.
    Whole,
}
