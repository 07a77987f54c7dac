//! Why a text has no typed unit, and where.
ghost use Rattle.std.specs.Prelude.{Some};
ghost use Rattle.pw_front.specs.Messages.{message_of};

use crate::message::{lex_phrase, syntax_phrase};
use pw_grammar::SyntaxError;
use pw_lex::LexError;
use pw_types::TypeError;
use std::error::Error;
use std::fmt::{self, Display, Formatter, Write};

/// Why a text gave no typed unit: its first fault, with the line of the fault, from 1.
#[derive(Debug, Drop)]
pub enum FrontError {
    /// The text has no tokens.
    Lex(LexError, u32),
    /// The tokens are no unit.
    Syntax(SyntaxError, u32),
    /// The unit has no types; the fault has its line itself.
    Typing(TypeError),
    /// Memory for the tokens, the tree or the typed unit was refused.
    NoMemory,
}

/// What is wrong, and the line with the byte or the token; out of memory has no place.
impl Display for FrontError {
    ghost output = { λ fault. Some (message_of fault) };

    fn fmt<W: Write>(&self, f: &mut Formatter<W>) -> fmt::Result {
        match self {
            FrontError::Lex(fault, line) => {
                let what = lex_phrase(*fault);
                match fault.place() {
                    Some(byte) => write!(f, "{what} at line {line} byte {byte}"),
                    None => f.write_str(what),
                }
            }
            FrontError::Syntax(fault, line) => {
                let (what, token) = (syntax_phrase(*fault), fault.token());
                write!(f, "{what} at line {line} token {token}")
            }
            FrontError::Typing(fault) => write!(f, "{fault}"),
            FrontError::NoMemory => f.write_str("out of memory"),
        }
    }
}

impl Error for FrontError {}
