//! The tokens of a whole text.
ghost use Rattle.std.specs.Prelude.{◌≡◌, ◌≢◌, ◌<◌, ◌+◌, ◌^◌, ◌++◌, length, IfOk, IfErr, IfSome, OnOk};
ghost use Rattle.pw_lex.specs.Text.{HasTokens, HasFault, place_of};
ghost use Rattle.pw_lex.specs.Reading as spec;

use crate::error::LexError;
use crate::line::newlines;
use crate::prefix::{Prefix, read_prefix};
use crate::token::Token;
use sqlite_items::Items;
use std::alloc::Global;

impl Prefix {
    /// Its length in bytes.
    fn len(&self) -> usize
        ensures { result ≡ spec.len_of self.now }
    {
        match self {
            Prefix::Gap(len) | Prefix::Token(_, len) => *len,
        }
    }
}

/// Adds the token, if it is one, that stands at `at` on a line.
fn keep(tokens: &mut Items<Token>, prefix: Prefix, at: u32, line: u32) -> Result<(), LexError>
    requires { at + spec.len_of prefix < 2 ^ 32 }
    ensures kept { OnOk result (tokens.new ≡ tokens.old ++ spec.tokens_of_prefix at line prefix) }
    ensures memory { IfErr result (λ fault. fault ≡ LexError.NoMemory) }
{
    if let Prefix::Token(kind, len) = prefix {
        let token = Token {
            kind,
            first: at,
            end: at + len as u32,
            line,
        };
        tokens.push(token).map_err(|_| LexError::NoMemory)?;
    }
    Ok(())
}

/// The tokens of a text of fewer than 2^32 bytes, or its first fault.
///
/// A line ends at a byte 10. Out of memory may be answered in place of either.
pub fn tokens(alloc: Global, text: &[u8]) -> Result<Items<Token>, LexError>
    requires { length text.now < 2 ^ 32 }
    ensures tokens { IfOk result (HasTokens text.now) }
    ensures first_fault { IfErr result (λ fault. fault ≢ LexError.NoMemory → HasFault text.now fault) }
    ensures place { IfErr result (λ fault. IfSome (place_of fault) (λ place. place < length text.now)) }
{
    let mut tokens = Items::new(alloc);
    let mut line: usize = 1;
    let mut rest = text;
    while !rest.is_empty() {
        let at = (text.len() - rest.len()) as u32;
        let prefix = read_prefix(alloc, rest, at)?;
        let (bytes, after) = rest.split_at(prefix.len());
        keep(&mut tokens, prefix, at, line as u32)?;
        line += newlines(bytes);
        rest = after;
    }
    Ok(tokens)
}
