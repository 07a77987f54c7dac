//! What stands at the beginning of a text: a gap, a token or a fault.
ghost use Rattle.std.specs.Prelude.{◌≡◌, ◌≢◌, ◌<◌, ◌≤◌, IfOk, IfErr, length, drop};
ghost use Rattle.pw_lex.specs.Reading as spec;

use crate::bytes::{Class, byte_at, class_of, run_len};
use crate::character::character_of;
use crate::comment::{close_len, line_len};
use crate::error::LexError;
use crate::number::number;
use crate::spellings::longest_punctuator;
use crate::token::TokenKind;
use crate::word::word;
use std::alloc::Global;

/// What stands at the beginning of a text, with its length in bytes.
#[derive(Drop)]
pub enum Prefix {
    /// A white byte or a comment.
    Gap(usize),
    Token(TokenKind, usize),
}

fn block_comment(text: &[u8], at: u32) -> Result<Prefix, LexError>
    requires { 2 ≤ length text.now }
    ensures { result ≡ spec.block_comment at (spec.close_from 0 (drop 2 text.now)) }
{
    match close_len(&text[2..]) {
        None => Err(LexError::OpenComment(at)),
        Some(len) => Ok(Prefix::Gap(2 + len)),
    }
}

fn punctuator(text: &[u8], at: u32) -> Result<Prefix, LexError>
    ensures { result ≡ spec.punctuator at (spec.longest_punctuator text.now) }
{
    match longest_punctuator(text) {
        None => Err(LexError::BadByte(at)),
        Some((number, len)) => Ok(Prefix::Token(TokenKind::Punct(number), len)),
    }
}

#[tactic(auto, unfolding(crate::specs::Reading::other))]
fn other(text: &[u8], at: u32) -> Result<Prefix, LexError>
    ensures { result ≡ spec.other at text.now }
{
    let (first, second) = (byte_at(text, 0), byte_at(text, 1));
    if first == b'/' && second == b'/' {
        Ok(Prefix::Gap(line_len(text)))
    } else if first == b'/' && second == b'*' {
        block_comment(text, at)
    } else {
        punctuator(text, at)
    }
}

fn character(text: &[u8], at: u32) -> Result<Prefix, LexError>
    ensures { result ≡ spec.character at (spec.character_of text.now) }
{
    match character_of(text) {
        None => Err(LexError::BadByte(at)),
        Some((value, len)) => Ok(Prefix::Token(TokenKind::Char(value), len)),
    }
}

/// What stands at the beginning of a text that has a byte, which stands at `at`.
#[tactic(auto, unfolding(crate::specs::Reading::prefix))]
pub fn read_prefix(alloc: Global, text: &[u8], at: u32) -> Result<Prefix, LexError>
    requires { 0 < length text.now }
    ensures prefix { IfOk result (λ prefix. spec.prefix at text.now ≡ Ok prefix) }
    ensures fault { IfErr result (λ fault. fault ≢ LexError.NoMemory → spec.prefix at text.now ≡ Err fault) }
{
    let (run, _) = text.split_at(run_len(text));
    match class_of(text[0]) {
        Class::White => Ok(Prefix::Gap(1)),
        Class::Letter => Ok(Prefix::Token(word(alloc, run, at)?, run.len())),
        Class::Digit => Ok(Prefix::Token(number(run, at)?, run.len())),
        Class::Quote => character(text, at),
        Class::Other => other(text, at),
    }
}
