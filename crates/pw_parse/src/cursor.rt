//! A cursor over tokens, the steps that every rule is made of.
ghost use Rattle.std.specs.Prelude.{◌≡◌, ◌-◌, ◌+◌, ◌^◌, ◌<◌, [], length};
ghost use Rattle.pw_grammar.specs.Reading.Steps as spec;
ghost use Rattle.pw_grammar.specs.Reading.Steps.{Reads};
ghost use Rattle.pw_grammar.specs.Statements.{first_line};
ghost use Rattle.pw_grammar.specs.Expressions.{value_in, is_unsigned_constant};
ghost use Rattle.pw_parse.specs.Steps.Values.{take_constant};

use pw_base::Name;
use pw_grammar::{Sort, SyntaxError, is_same, sort_of, word_of};
use pw_lex::{Token, TokenKind};
use std::alloc::Global;
use std::marker::Model;

/// The tokens that are still to be read, and the number of the next, from 0.
#[derive(Drop)]
pub(crate) struct Cursor<'a> {
    rest: &'a [Token],
    at: usize,
}

impl<'a> Model for Cursor<'a> {
    ghost use Rattle.pw_grammar.specs.Reading.Steps.{Position};
    ghost use Rattle.pw_parse.specs.Steps.Cursor.{position_of, IsNumbered};

    ghost Value = { Position };

    ghost view = { position_of };

    ghost invariant = { IsNumbered };
}

/// The value of a constant, and whether it is unsigned; 0 for another token.
fn value_of(kind: &TokenKind) -> (u64, bool)
    ensures { result ≡ (value_in kind.now, is_unsigned_constant kind.now) }
{
    match kind {
        TokenKind::Number(value, unsigned) => (*value, *unsigned),
        TokenKind::Char(value) => (u64::from(*value), false),
        TokenKind::Word(_) | TokenKind::Keyword(_) | TokenKind::Punct(_) => (0, false),
    }
}

impl<'a> Cursor<'a> {
    /// The start of fewer than 2^32 tokens.
    pub fn new(tokens: &'a [Token]) -> Cursor<'a>
        requires { length tokens.now < 2 ^ 32 }
        ensures { result ≡ record { at = 0; rest = tokens.now } }
    {
        Cursor {
            rest: tokens,
            at: 0,
        }
    }

    /// The next token's number; at the end, that of the tokens.
    pub fn at(&self) -> u32
        ensures { result ≡ self.now.at }
    {
        self.at as u32
    }

    /// The number of the token that was read last.
    pub fn last(&self) -> u32
        ensures { result ≡ self.now.at - 1 }
    {
        self.at.saturating_sub(1) as u32
    }

    /// The next token's line, or 0.
    pub fn line(&self) -> u32
        ensures { result ≡ first_line self.now.rest }
    {
        match self.rest {
            [] => 0,
            [token, ..] => token.line,
        }
    }

    /// The next token's symbol.
    pub fn peek(&self) -> Sort
        ensures { result ≡ spec.next_sort self.now }
    {
        match self.rest {
            [] => Sort::End,
            [token, ..] => sort_of(&token.kind),
        }
    }

    /// Whether the next token has this symbol.
    #[tactic(auto, unfolding(pw_grammar::specs::Reading::Steps::sees))]
    pub fn sees(&self, sort: Sort) -> bool
        ensures { result ≡ spec.sees sort self.now }
    {
        is_same(self.peek(), sort)
    }

    /// The fault that no unit goes on with the next token.
    pub fn refuse(&self) -> SyntaxError
        ensures { result ≡ SyntaxError.At self.now.at }
    {
        SyntaxError::At(self.at())
    }

    /// Takes the next token, and answers its line.
    #[tactic(auto, unfolding(pw_grammar::specs::Reading::Steps::skip, pw_grammar::specs::Reading::Steps::take, pw_grammar::specs::Reading::Steps::take_from))]
    pub fn skip(&mut self) -> Result<u32, SyntaxError>
        ensures { Reads (spec.skip self.old) result self.new }
    {
        match self.rest {
            [] => Err(self.refuse()),
            [token, rest @ ..] => {
                self.rest = rest;
                self.at += 1;
                Ok(token.line)
            }
        }
    }

    /// Takes a token of this symbol, and answers its line.
    #[tactic(auto, unfolding(pw_grammar::specs::Reading::Steps::expect))]
    pub fn expect(&mut self, sort: Sort) -> Result<u32, SyntaxError>
        ensures { Reads (spec.expect sort self.old) result self.new }
    {
        if self.sees(sort) {
            self.skip()
        } else {
            Err(self.refuse())
        }
    }

    /// Takes an identifier.
    #[tactic(auto, unfolding(pw_grammar::specs::Reading::Steps::name, pw_grammar::specs::Reading::Steps::sees, pw_grammar::specs::Reading::Steps::take, pw_grammar::specs::Reading::Steps::take_from))]
    pub fn name(&mut self, alloc: Global) -> Result<Name, SyntaxError>
        ensures { Reads (spec.name self.old) result self.new }
    {
        match self.rest {
            [] => Err(self.refuse()),
            [token, rest @ ..] => match word_of(&token.kind) {
                None => Err(self.refuse()),
                Some(word) => {
                    let name = word.copy(alloc)?;
                    self.rest = rest;
                    self.at += 1;
                    Ok(name)
                }
            },
        }
    }

    /// Takes a token, and answers the value of the constant that it is, and whether it is unsigned.
    #[tactic(auto, unfolding(pw_grammar::specs::Reading::Steps::take, pw_grammar::specs::Reading::Steps::take_from))]
    pub fn value(&mut self) -> Result<(u64, bool), SyntaxError>
        ensures { Reads (take_constant self.old) result self.new }
    {
        match self.rest {
            [] => Err(self.refuse()),
            [token, rest @ ..] => {
                self.rest = rest;
                self.at += 1;
                Ok(value_of(&token.kind))
            }
        }
    }
}
