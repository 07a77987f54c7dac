//! Reads a whole text: its typed unit, or its first fault with the line.
ghost use Rattle.std.specs.Prelude.{◌≡◌, ◌≢◌, ◌<◌, ◌^◌, length, IfOk, IfErr, IfSome};
ghost use Rattle.pw_grammar.specs.Faults.{IsFirstFault};
ghost use Rattle.pw_lex.specs.Text.{HasTokens, HasFault, place_of};
ghost use Rattle.pw_tree.specs.Units.{unit_of};
ghost use Rattle.pw_tree.specs.WellTypedUnits.{IsWellTyped};
ghost use Rattle.pw_front.specs.Units.{IsUnitOf, IsTypedUnitOf, FaultOf};

use crate::error::FrontError;
use pw_grammar::SyntaxError;
use pw_lex::{LexError, Token, end_line, line_at};
use pw_parse::{fault_line, parse};
use pw_tree::{TUnit, Unit};
use pw_types::{TypeError, check};
use sqlite_items::Items;
use std::alloc::Global;

/// The lexer's fault with the line of its place.
fn lexical(text: &[u8], fault: LexError) -> FrontError
    requires short { length text.now < 2 ^ 32 }
    requires is { fault ≢ LexError.NoMemory → HasFault text.now fault }
    requires place { IfSome (place_of fault) (λ place. place < length text.now) }
    ensures { FaultOf text.now result }
{
    match fault.place() {
        Some(place) => FrontError::Lex(fault, line_at(text, place as usize) as u32),
        None => FrontError::NoMemory,
    }
}

/// A fault of the tokens with the line of its token, or of the text's end.
fn syntactic(text: &[u8], tokens: &[Token], fault: SyntaxError) -> FrontError
    requires short { length text.now < 2 ^ 32 }
    requires tokens { HasTokens text.now tokens.now }
    requires is { fault ≢ SyntaxError.NoMemory → IsFirstFault tokens.now fault }
    ensures { FaultOf text.now result }
{
    if fault == SyntaxError::NoMemory {
        return FrontError::NoMemory;
    }
    FrontError::Syntax(fault, fault_line(tokens, end_line(text) as u32, fault))
}

/// The tokens of a text, or its first fault.
fn cut(alloc: Global, text: &[u8]) -> Result<Items<Token>, FrontError>
    requires { length text.now < 2 ^ 32 }
    ensures tokens { IfOk result (HasTokens text.now) }
    ensures fault { IfErr result (FaultOf text.now) }
{
    match pw_lex::tokens(alloc, text) {
        Ok(tokens) => Ok(tokens),
        Err(fault) => Err(lexical(text, fault)),
    }
}

/// The unit of a text, or its first fault as tokens and as a unit.
#[tactic(auto, using(crate::proofs::Lines::tokens_within))]
fn read(alloc: Global, text: &[u8]) -> Result<Unit, FrontError>
    requires { length text.now < 2 ^ 32 }
    ensures unit { IfOk result (IsUnitOf text.now) }
    ensures fault { IfErr result (FaultOf text.now) }
{
    let tokens = cut(alloc, text)?;
    match parse(alloc, tokens.as_slice()) {
        Ok(unit) => Ok(unit),
        Err(fault) => Err(syntactic(text, tokens.as_slice(), fault)),
    }
}

/// The typed unit of a text of fewer than 2^32 bytes, or its first fault with the line, from 1.
///
/// Refusals: `Lex` exactly where the text has no tokens, `Syntax` exactly where it has some, and they are no unit within
/// the limits, and `Typing` exactly where it has a unit that is not well typed. `NoMemory` may come in place of each
/// answer.
pub fn front(alloc: Global, text: &[u8]) -> Result<TUnit, FrontError>
    requires { length text.now < 2 ^ 32 }
    ensures unit { IfOk result (IsTypedUnitOf text.now) }
    ensures fault { IfErr result (FaultOf text.now) }
    ensures well_typed { IfOk result (λ unit. IsWellTyped (unit_of unit)) }
{
    let unit = read(alloc, text)?;
    match check(alloc, &unit) {
        Ok(typed) => Ok(typed),
        Err(TypeError::NoMemory) => Err(FrontError::NoMemory),
        Err(fault) => Err(FrontError::Typing(fault)),
    }
}
