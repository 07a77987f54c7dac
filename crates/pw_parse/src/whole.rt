//! The tree of a whole token list, or its first fault.
ghost use Rattle.std.specs.Prelude.{◌≡◌, ◌≢◌, ◌<◌, ◌^◌, ◌-◌, length, map, IfOk, IfErr};
ghost use Rattle.pw_grammar.specs.Declarations.{Derives, lines_of};
ghost use Rattle.pw_grammar.specs.Faults.{IsFaultless, IsFirstFault, IsFault, token_of};
ghost use Rattle.pw_grammar.specs.Reading.Whole as spec;
ghost use Rattle.pw_grammar.specs.Reading.Declarations as declarations;
ghost use Rattle.pw_parse.specs.Steps.Answers.{GivesAnswer};
ghost use Rattle.pw_parse.specs.Whole.{fault_line_of};

use crate::cursor::Cursor;
use crate::limits::first_limit;
use crate::unit::unit;
use pw_base::NoMemory;
use pw_grammar::SyntaxError;
use pw_lex::Token;
use pw_tree::{Decl, Unit};
use sqlite_items::Items;
use std::alloc::Global;

/// More than a list of tokens may have, so that no list nests deeper.
const DEPTH: usize = 1 << 32;

/// The declarations of the tokens up to a limit's token show whether a unit goes on there.
fn under_limit(
    alloc: Global,
    tokens: &[Token],
    limit: SyntaxError,
) -> Result<Items<Decl>, SyntaxError>
    requires { length tokens.now < 2 ^ 32 }
    ensures { GivesAnswer (spec.judged_by limit (declarations.unit (2 ^ 32) (record { at = 0; rest = tokens.now }))) result }
{
    match unit(alloc, &mut Cursor::new(tokens), DEPTH) {
        Ok(_) => Err(limit),
        Err(fault) => Err(if fault.token() <= limit.token() {
            fault
        } else {
            limit
        }),
    }
}

/// The declarations of a list with no limit.
fn without_limit(alloc: Global, tokens: &[Token]) -> Result<Items<Decl>, SyntaxError>
    requires { length tokens.now < 2 ^ 32 }
    ensures { GivesAnswer (spec.value_of (declarations.unit (2 ^ 32) (record { at = 0; rest = tokens.now }))) result }
{
    unit(alloc, &mut Cursor::new(tokens), DEPTH)
}

/// The declarations of a list, or its first fault.
#[tactic(auto, unfolding(pw_grammar::specs::Reading::Whole::parsed))]
fn parsed(alloc: Global, tokens: &[Token]) -> Result<Items<Decl>, SyntaxError>
    requires { length tokens.now < 2 ^ 32 }
    ensures { GivesAnswer (spec.parsed (2 ^ 32) tokens.now) result }
{
    match first_limit(tokens) {
        None => without_limit(alloc, tokens),
        Some(limit) => under_limit(alloc, &tokens[..limit.token() as usize + 1], limit),
    }
}

/// The line of each token.
fn lines(alloc: Global, tokens: &[Token]) -> Result<Items<u32>, NoMemory>
    ensures { IfOk result (λ lines. lines ≡ lines_of tokens.now) }
{
    let mut lines = Items::new(alloc);
    for token in tokens {
        lines.push(token.line)?;
    }
    Ok(lines)
}

/// The unit that the grammar derives from a list of fewer than 2^32 tokens (C17, 6.5 to 6.9), with the place of each
/// phrase: its first and its last token, from 0, and a line, from 1.
///
/// Refusals: exactly the first fault of the list, the one at the least token and at one token in this order. `At`: no
/// unit has the tokens up to this one as its first; at the end, the list is no unit. `TooNested`: the token opens a
/// bracket while `Limits::OPEN_BRACKETS` are open. `TooLong`: the token stands in a function's body, its braces
/// included, after `Limits::FUNCTION_TOKENS` tokens of the function. `NoMemory` may come in place of each answer.
pub fn parse(alloc: Global, tokens: &[Token]) -> Result<Unit, SyntaxError>
    requires { length tokens.now < 2 ^ 32 }
    ensures tree { IfOk result (λ unit. Derives tokens.now unit) }
    ensures no_fault { IfOk result (λ _. IsFaultless tokens.now) }
    ensures first_fault { IfErr result (λ fault. fault ≢ SyntaxError.NoMemory → IsFirstFault tokens.now fault) }
{
    match parsed(alloc, tokens) {
        Ok(decls) => Ok(Unit {
            decls,
            lines: lines(alloc, tokens)?,
        }),
        Err(fault) => Err(fault),
    }
}

/// The line of a fault: that of its token, or `end_line` where the list ends too early.
pub fn fault_line(tokens: &[Token], end_line: u32, fault: SyntaxError) -> u32
    ensures { result ≡ fault_line_of tokens.now end_line (token_of fault) }
{
    let at = fault.token() as usize;
    if at < tokens.len() {
        tokens[at].line
    } else {
        end_line
    }
}
