//! A place in a source text, as messages name it.

/// A place in a source text.
#[derive(Clone, Copy, PartialEq, Eq, Debug)]
pub struct Pos {
    /// The line, from 1.
    pub line: u32,
    /// The number of the token, from 0.
    pub token: u32,
}
