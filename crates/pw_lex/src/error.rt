//! The faults of a text, each with its place.

ghost use Rattle.std.specs.Prelude.{◌≡◌};
ghost use Rattle.pw_lex.specs.Text.{place_of};

use thiserror::Error;

/// Why a text has no tokens: its first fault, with the first byte of the faulty phrase, from 0.
#[derive(Clone, Copy, PartialEq, Eq, Debug, Error)]
pub enum LexError {
    /// No white space, comment or token begins here.
    #[error("bad byte")]
    BadByte(u32),
    /// A `/*` with no `*/` after it.
    #[error("open comment")]
    OpenComment(u32),
    /// A run of letters, digits and `_` that begins with a digit and is no integer constant.
    #[error("bad number")]
    BadNumber(u32),
    /// An integer constant whose value is too large for its type.
    #[error("number too wide")]
    TooWide(u32),
    /// A name of more than `Limits::NAME_BYTES` bytes.
    #[error("name too long")]
    LongName(u32),
    /// Memory for the tokens was refused.
    #[error("out of memory")]
    NoMemory,
}

impl LexError {
    /// The first byte of the faulty phrase, from 0; `NoMemory` has no place.
    pub fn place(&self) -> Option<u32>
        ensures { result ≡ place_of self.now }
    {
        match self {
            LexError::BadByte(place)
            | LexError::OpenComment(place)
            | LexError::BadNumber(place)
            | LexError::TooWide(place)
            | LexError::LongName(place) => Some(*place),
            LexError::NoMemory => None,
        }
    }
}
