//! Names and keywords.
ghost use Rattle.std.specs.Prelude.{◌≡◌, ◌≢◌, IfOk, IfErr};
ghost use Rattle.pw_lex.specs.Reading as spec;

use crate::error::LexError;
use crate::spellings::{KEYWORDS, number_of};
use crate::token::TokenKind;
use pw_base::{Limits, Name};
use std::alloc::Global;

/// The name of a run, which is short enough.
fn name(alloc: Global, bytes: &[u8]) -> Result<TokenKind, LexError>
    ensures name { IfOk result (λ kind. kind ≡ TokenKind.Word bytes.now) }
    ensures memory { IfErr result (λ fault. fault ≡ LexError.NoMemory) }
{
    match Name::read(alloc, bytes) {
        Ok(name) => Ok(TokenKind::Word(name)),
        Err(_) => Err(LexError::NoMemory),
    }
}

/// The name or the keyword that a whole run is, which stands at `at`. Refusals: `LongName`, and `NoMemory`.
#[tactic(auto, unfolding(crate::specs::Reading::word_in, crate::specs::Spellings::keywords))]
pub fn word(alloc: Global, bytes: &[u8], at: u32) -> Result<TokenKind, LexError>
    ensures kind { IfOk result (λ kind. spec.word_in at bytes.now ≡ Ok kind) }
    ensures fault { IfErr result (λ fault. fault ≢ LexError.NoMemory → spec.word_in at bytes.now ≡ Err fault) }
{
    if bytes.len() > Limits::NAME_BYTES {
        return Err(LexError::LongName(at));
    }
    match number_of(&KEYWORDS, bytes) {
        Some(number) => Ok(TokenKind::Keyword(number)),
        None => name(alloc, bytes),
    }
}
