//! A row of a table: a text, what it is to show, and why; and what a text shows.

ghost use Rattle.std.specs.Prelude.{◌<◌, ◌^◌, length};

use pw_lex::{Token, TokenKind, line_at, tokens};
use std::alloc::{AllocError, Global};
use std::process::Abort;
use std::test::Fail;

/// A text, its tokens or its fault, and what the row is there for.
pub type Row = (&'static [u8], &'static str, &'static str);

/// A token as `KIND@FIRST..END/LINE`.
fn shown_token(alloc: Global, token: &Token) -> Result<String, AllocError> {
    let (first, end, line) = (token.first, token.end, token.line);
    match &token.kind {
        TokenKind::Word(_) => format!(in alloc; "word@{first}..{end}/{line} "),
        TokenKind::Number(value, true) => format!(in alloc; "{value}u@{first}..{end}/{line} "),
        TokenKind::Number(value, false) => format!(in alloc; "{value}@{first}..{end}/{line} "),
        TokenKind::Char(value) => format!(in alloc; "char{value}@{first}..{end}/{line} "),
        TokenKind::Keyword(number) => format!(in alloc; "key{number}@{first}..{end}/{line} "),
        TokenKind::Punct(number) => format!(in alloc; "punct{number}@{first}..{end}/{line} "),
    }
}

/// The tokens of a text, or its fault as messages name it.
fn shown(alloc: Global, text: &[u8]) -> Result<String, AllocError>
    requires { length text.now < 2 ^ 32 }
{
    match tokens(alloc, text) {
        Ok(tokens) => {
            let mut out = String::new(alloc);
            for token in tokens.as_slice() {
                out.push_str(shown_token(alloc, token)?.as_str())?;
            }
            Ok(out)
        }
        Err(fault) => match fault.place() {
            Some(place) => {
                let line = line_at(text, place as usize);
                format!(in alloc; "{fault} at line {line} byte {place}")
            }
            None => format!(in alloc; "{fault}"),
        },
    }
}

/// Compares each text with what it is to show.
pub fn agree(rt: &impl Abort, alloc: Global, rows: &[Row]) -> Result<(), Fail> {
    for (text, expected, why) in rows {
        assert!(rt; text.len() < 1000);
        assert_eq!(rt; shown(alloc, text)?.as_str(), *expected, "{why}: {text:?}");
    }
    Ok(())
}
