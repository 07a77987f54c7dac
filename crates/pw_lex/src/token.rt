//! A token: what it is, and where it stands in the text.

use pw_base::Name;

/// A token of a text (C, 6.4).
#[derive(Debug, Drop)]
pub struct Token {
    pub kind: TokenKind,
    /// Its first byte, from 0.
    pub first: u32,
    /// The byte after its last.
    pub end: u32,
    /// Its line, from 1.
    pub line: u32,
}

/// What a token is.
#[derive(Debug, Drop)]
pub enum TokenKind {
    /// A name that is no keyword.
    Word(Name),
    /// The value of an integer constant, and whether its type is `unsigned long`; else it is `long`.
    Number(u64, bool),
    /// The value of a character constant, whose type is `long`.
    Char(u8),
    /// A keyword: one of the numbers of `keyword`.
    Keyword(u8),
    /// A punctuator: one of the numbers of `punct`.
    Punct(u8),
}
