//! The three clauses between the brackets of a `for` (C17, 6.8.5.3).
ghost use Rattle.pw_grammar.specs.Reading.Steps.{Reads};
ghost use Rattle.pw_grammar.specs.Reading.Expressions as expressions;
ghost use Rattle.pw_grammar.specs.Reading.Statements as spec;

use crate::cursor::Cursor;
use crate::expression::expression;
use crate::simple_statement::{local, simple_statement};
use crate::types::begins_type;
use pw_grammar::{Sort, SyntaxError};
use pw_tree::{Expr, Stmt};
use sqlite_items::Boxed;
use std::alloc::Global;

/// What comes up to a token of this sort: an expression, or nothing.
#[tactic(auto, unfolding(pw_grammar::specs::Reading::Statements::maybe_before, pw_grammar::specs::Reading::Statements::some))]
pub(crate) fn maybe_expression(
    alloc: Global,
    cursor: &mut Cursor<'_>,
    depth: usize,
    end: Sort,
) -> Result<Option<Boxed<Expr>>, SyntaxError>
    ensures { Reads (spec.maybe_before end (expressions.expression depth) cursor.old) result cursor.new }
{
    if cursor.sees(end) {
        return Ok(None);
    }
    let value = expression(alloc, cursor, depth)?;
    Ok(Some(value))
}

/// What comes up to the closing bracket: an assignment, an expression, or nothing.
#[tactic(auto, unfolding(pw_grammar::specs::Reading::Statements::maybe_before, pw_grammar::specs::Reading::Statements::some))]
pub(crate) fn maybe_step(
    alloc: Global,
    cursor: &mut Cursor<'_>,
    depth: usize,
) -> Result<Option<Boxed<Stmt>>, SyntaxError>
    ensures { Reads (spec.maybe_before Sort.RightParen (spec.simple_statement (expressions.expression depth)) cursor.old) result cursor.new }
{
    if cursor.sees(Sort::RightParen) {
        return Ok(None);
    }
    let step = simple_statement(alloc, cursor, depth)?;
    Ok(Some(step))
}

/// An assignment or an expression, and `;`.
#[tactic(auto, unfolding(pw_grammar::specs::Reading::Statements::simple_start))]
fn simple_start(
    alloc: Global,
    cursor: &mut Cursor<'_>,
    depth: usize,
) -> Result<Option<Boxed<Stmt>>, SyntaxError>
    ensures { Reads (spec.simple_start (expressions.expression depth) cursor.old) result cursor.new }
{
    let start = simple_statement(alloc, cursor, depth)?;
    cursor.expect(Sort::Semicolon)?;
    Ok(Some(start))
}

/// The first part: a local, an assignment, an expression, or nothing, and its `;`.
#[tactic(auto, unfolding(pw_grammar::specs::Reading::Statements::start, pw_grammar::specs::Reading::Statements::no_start, pw_grammar::specs::Reading::Statements::some))]
pub(crate) fn start(
    alloc: Global,
    cursor: &mut Cursor<'_>,
    depth: usize,
) -> Result<Option<Boxed<Stmt>>, SyntaxError>
    ensures { Reads (spec.start (expressions.expression depth) cursor.old) result cursor.new }
{
    if cursor.sees(Sort::Semicolon) {
        cursor.skip()?;
        return Ok(None);
    }
    if !begins_type(cursor.peek()) {
        return simple_start(alloc, cursor, depth);
    }
    let start = local(alloc, cursor, depth)?;
    Ok(Some(start))
}
