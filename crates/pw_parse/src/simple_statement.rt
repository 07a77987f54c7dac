//! Statements that hold expressions alone: locals, assignments, and expressions by themselves.
#![tactic(auto, unfolding(pw_grammar::specs::Reading::Statements::test))]

ghost use Rattle.std.specs.Prelude.{◌≡◌, Some};
ghost use Rattle.pw_grammar.specs.Reading.Steps.{Reads};
ghost use Rattle.pw_grammar.specs.Reading.Expressions as expressions;
ghost use Rattle.pw_grammar.specs.Reading.Statements as spec;

use crate::cursor::Cursor;
use crate::expression::expression;
use crate::node::{finished_statement, unboxed};
use crate::types::type_name;
use pw_base::Name;
use pw_grammar::{Sort, SyntaxError};
use pw_tree::{Expr, ExprKind, Stmt, StmtKind};
use sqlite_items::Boxed;
use std::alloc::Global;

/// `= e`, or nothing.
#[tactic(auto, unfolding(pw_grammar::specs::Reading::Statements::maybe_value, pw_grammar::specs::Reading::Statements::value))]
fn maybe_value(
    alloc: Global,
    cursor: &mut Cursor<'_>,
    depth: usize,
) -> Result<Option<Boxed<Expr>>, SyntaxError>
    ensures { Reads (spec.maybe_value (expressions.expression depth) cursor.old) result cursor.new }
{
    if !cursor.sees(Sort::Assign) {
        return Ok(None);
    }
    cursor.skip()?;
    let value = expression(alloc, cursor, depth)?;
    Ok(Some(value))
}

/// A local's declaration.
#[tactic(auto, unfolding(pw_grammar::specs::Reading::Statements::local))]
pub(crate) fn local(
    alloc: Global,
    cursor: &mut Cursor<'_>,
    depth: usize,
) -> Result<Boxed<Stmt>, SyntaxError>
    ensures { Reads (spec.local (expressions.expression depth) cursor.old) result cursor.new }
{
    let first = cursor.at();
    let line = cursor.line();
    let ty = type_name(cursor)?;
    let name = cursor.name(alloc)?;
    let value = maybe_value(alloc, cursor, depth)?;
    cursor.expect(Sort::Semicolon)?;
    let kind = StmtKind::Local(ty, name, unboxed(value));
    finished_statement(alloc, cursor, first, line, kind)
}

/// The identifier that an expression is, if its first token has this number: so that no brackets stand round it.
fn word_of(first: u32, expr: Boxed<Expr>) -> Option<Name>
    ensures { result ≡ spec.word_of first expr }
{
    let expr = expr.into_inner();
    match expr.kind {
        ExprKind::Word(name) if expr.first == first => Some(name),
        _ => None,
    }
}

/// The identifier, or the identifier and the index, that an expression assigns to where it begins a statement.
#[tactic(auto, unfolding(pw_grammar::specs::Reading::Statements::target))]
fn target(first: u32, expr: Boxed<Expr>) -> Option<(Name, Option<Boxed<Expr>>)>
    ensures { result ≡ spec.target first expr }
{
    if expr.get().first != first {
        return None;
    }
    match expr.into_inner().kind {
        ExprKind::Word(name) => Some((name, None)),
        ExprKind::Index(base, index) => {
            let name = word_of(first, base)?;
            Some((name, Some(index)))
        }
        _ => None,
    }
}

/// `= e` after what is assigned to.
fn assigned(
    alloc: Global,
    cursor: &mut Cursor<'_>,
    depth: usize,
    to: (Name, Option<Boxed<Expr>>),
) -> Result<Boxed<StmtKind>, SyntaxError>
    ensures { Reads (spec.assigned (expressions.expression depth) (Some to) cursor.old) result cursor.new }
{
    cursor.skip()?;
    let value = expression(alloc, cursor, depth)?;
    let (name, index) = to;
    Ok(Boxed::new(
        alloc,
        StmtKind::Set(name, unboxed(index), value.into_inner()),
    )?)
}

/// An assignment, or an expression by itself.
#[tactic(auto, unfolding(pw_grammar::specs::Reading::Statements::simple))]
fn simple(
    alloc: Global,
    cursor: &mut Cursor<'_>,
    depth: usize,
) -> Result<Boxed<StmtKind>, SyntaxError>
    ensures { Reads (spec.simple (expressions.expression depth) cursor.old) result cursor.new }
{
    let first = cursor.at();
    let left = expression(alloc, cursor, depth)?;
    if !cursor.sees(Sort::Assign) {
        return Ok(Boxed::new(alloc, StmtKind::Eval(left.into_inner()))?);
    }
    match target(first, left) {
        Some(to) => assigned(alloc, cursor, depth, to),
        None => Err(cursor.refuse()),
    }
}

/// An assignment, or an expression by itself, without its `;`.
#[tactic(auto, unfolding(pw_grammar::specs::Reading::Statements::simple_statement))]
pub(crate) fn simple_statement(
    alloc: Global,
    cursor: &mut Cursor<'_>,
    depth: usize,
) -> Result<Boxed<Stmt>, SyntaxError>
    ensures { Reads (spec.simple_statement (expressions.expression depth) cursor.old) result cursor.new }
{
    let first = cursor.at();
    let line = cursor.line();
    let kind = simple(alloc, cursor, depth)?;
    finished_statement(alloc, cursor, first, line, kind.into_inner())
}

/// An assignment or an expression, and `;`.
#[tactic(auto, unfolding(pw_grammar::specs::Reading::Statements::evaluated))]
pub(crate) fn evaluated(
    alloc: Global,
    cursor: &mut Cursor<'_>,
    depth: usize,
) -> Result<Boxed<StmtKind>, SyntaxError>
    ensures { Reads (spec.evaluated (expressions.expression depth) cursor.old) result cursor.new }
{
    let kind = simple(alloc, cursor, depth)?;
    cursor.expect(Sort::Semicolon)?;
    Ok(kind)
}

/// `( e )`
pub(crate) fn test(
    alloc: Global,
    cursor: &mut Cursor<'_>,
    depth: usize,
) -> Result<Boxed<Expr>, SyntaxError>
    ensures { Reads (spec.test (expressions.expression depth) cursor.old) result cursor.new }
{
    cursor.expect(Sort::LeftParen)?;
    let test = expression(alloc, cursor, depth)?;
    cursor.expect(Sort::RightParen)?;
    Ok(test)
}
