//! Control-flow heads: what stands of an `if`, `while`, `do` or `for` before the statement that it holds.
ghost use Rattle.std.specs.Prelude.{◌≡◌, ◌≤◌, ◌<◌, length, Ok, IfOk, IfNone};
ghost use Rattle.pw_grammar.specs.Reading.Expressions as expressions;
ghost use Rattle.pw_grammar.specs.Reading.Steps.{Reads};
ghost use Rattle.pw_parse.specs.Steps.Heads as spec;
ghost use Rattle.pw_parse.specs.Steps.Nesting as nesting;
ghost use Rattle.pw_parse.specs.Steps.Nesting.{Resumes};

use crate::cursor::Cursor;
use crate::for_clauses::{maybe_expression, maybe_step, start};
use crate::node::{finished_statement, unboxed};
use crate::simple_statement::test;
use pw_grammar::{Sort, SyntaxError};
use pw_tree::{Expr, Stmt, StmtKind};
use sqlite_items::{Boxed, Items};
use std::alloc::Global;

/// A statement's head, and its first token's number and line.
#[derive(Drop)]
pub(crate) struct Head {
    pub first: u32,
    pub line: u32,
    pub form: HeadForm,
}

/// The forms of heads.
#[derive(Drop)]
pub(crate) enum HeadForm {
    /// `if ( e )`
    If(Boxed<Expr>),
    /// `if ( e ) s else`
    Else(Boxed<Expr>, Boxed<Stmt>),
    /// `while ( e )`
    While(Boxed<Expr>),
    /// `do`
    Do,
    /// `for ( start e ; step )`
    For(Option<Boxed<Stmt>>, Option<Boxed<Expr>>, Option<Boxed<Stmt>>),
}

/// A whole statement, or the head of one.
#[derive(Drop)]
pub(crate) enum Front {
    Whole(Boxed<Stmt>),
    Head(Head),
}

/// `if ( e )`
#[tactic(auto, unfolding(crate::specs::Steps::Heads::if_head))]
fn if_head(alloc: Global, cursor: &mut Cursor<'_>, depth: usize) -> Result<HeadForm, SyntaxError>
    ensures { Reads (spec.if_head (expressions.expression depth) cursor.old) result cursor.new }
{
    cursor.skip()?;
    let test = test(alloc, cursor, depth)?;
    Ok(HeadForm::If(test))
}

/// `while ( e )`
#[tactic(auto, unfolding(crate::specs::Steps::Heads::while_head))]
fn while_head(alloc: Global, cursor: &mut Cursor<'_>, depth: usize) -> Result<HeadForm, SyntaxError>
    ensures { Reads (spec.while_head (expressions.expression depth) cursor.old) result cursor.new }
{
    cursor.skip()?;
    let test = test(alloc, cursor, depth)?;
    Ok(HeadForm::While(test))
}

/// `do`
#[tactic(auto, unfolding(crate::specs::Steps::Heads::do_head))]
fn do_head(cursor: &mut Cursor<'_>) -> Result<HeadForm, SyntaxError>
    ensures { Reads (spec.do_head cursor.old) result cursor.new }
{
    cursor.skip()?;
    Ok(HeadForm::Do)
}

/// `for ( start e ; step )`
#[tactic(auto, unfolding(crate::specs::Steps::Heads::for_head))]
fn for_head(alloc: Global, cursor: &mut Cursor<'_>, depth: usize) -> Result<HeadForm, SyntaxError>
    ensures { Reads (spec.for_head (expressions.expression depth) cursor.old) result cursor.new }
{
    cursor.skip()?;
    cursor.expect(Sort::LeftParen)?;
    let first = start(alloc, cursor, depth)?;
    let condition = maybe_expression(alloc, cursor, depth, Sort::Semicolon)?;
    cursor.expect(Sort::Semicolon)?;
    let last = maybe_step(alloc, cursor, depth)?;
    cursor.expect(Sort::RightParen)?;
    Ok(HeadForm::For(first, condition, last))
}

/// A head, if a token of this sort begins one.
#[tactic(auto, unfolding(pw_grammar::specs::Reading::Statements::some))]
pub(crate) fn maybe_head(
    alloc: Global,
    cursor: &mut Cursor<'_>,
    depth: usize,
    sort: Sort,
) -> Result<Option<HeadForm>, SyntaxError>
    ensures { Reads (spec.head_by (expressions.expression depth) sort cursor.old) result cursor.new }
{
    match sort {
        Sort::If => Ok(Some(if_head(alloc, cursor, depth)?)),
        Sort::While => Ok(Some(while_head(alloc, cursor, depth)?)),
        Sort::Do => Ok(Some(do_head(cursor)?)),
        Sort::For => Ok(Some(for_head(alloc, cursor, depth)?)),
        _ => Ok(None),
    }
}

/// The whole statement of this form.
pub(crate) fn whole(
    alloc: Global,
    cursor: &Cursor<'_>,
    first: u32,
    line: u32,
    kind: StmtKind,
) -> Result<Front, SyntaxError>
    ensures { Reads (spec.whole first line kind cursor.now) result cursor.now }
{
    Ok(Front::Whole(finished_statement(alloc, cursor, first, line, kind)?))
}

/// `else`, after `if ( e ) s`.
#[tactic(auto, unfolding(crate::specs::Steps::Heads::else_head))]
fn else_head(
    cursor: &mut Cursor<'_>,
    first: u32,
    line: u32,
    test: Boxed<Expr>,
    yes: Boxed<Stmt>,
) -> Result<Front, SyntaxError>
    ensures { Reads (spec.else_head first line test yes cursor.old) result cursor.new }
{
    cursor.skip()?;
    Ok(Front::Head(Head {
        first,
        line,
        form: HeadForm::Else(test, yes),
    }))
}

/// `if ( e ) s` up to its end, or up to the statement after `else`.
fn if_end(
    alloc: Global,
    cursor: &mut Cursor<'_>,
    first: u32,
    line: u32,
    test: Boxed<Expr>,
    yes: Boxed<Stmt>,
) -> Result<Front, SyntaxError>
    ensures { Reads (spec.if_end first line test yes cursor.old) result cursor.new }
{
    if cursor.sees(Sort::Else) {
        else_head(cursor, first, line, test, yes)
    } else {
        let kind = StmtKind::If(test.into_inner(), yes, None);
        whole(alloc, cursor, first, line, kind)
    }
}

/// `while ( e ) ;` after `do s`.
#[tactic(auto, unfolding(crate::specs::Steps::Heads::do_end))]
fn do_end(
    alloc: Global,
    cursor: &mut Cursor<'_>,
    depth: usize,
    body: Boxed<Stmt>,
) -> Result<StmtKind, SyntaxError>
    ensures { Reads (spec.do_end (expressions.expression depth) body cursor.old) result cursor.new }
{
    cursor.expect(Sort::While)?;
    let test = test(alloc, cursor, depth)?;
    cursor.expect(Sort::Semicolon)?;
    Ok(StmtKind::Do(body, test.into_inner()))
}

/// What comes after a head and its statement: the end of the whole, or `else`, which is one more head.
#[tactic(auto, unfolding(crate::specs::Steps::Heads::closed))]
fn closed(
    alloc: Global,
    cursor: &mut Cursor<'_>,
    depth: usize,
    head: Head,
    inner: Boxed<Stmt>,
) -> Result<Front, SyntaxError>
    ensures { Reads (spec.closed (expressions.expression depth) head inner cursor.old) result cursor.new }
{
    let Head { first, line, form } = head;
    let kind = match form {
        HeadForm::If(test) => return if_end(alloc, cursor, first, line, test, inner),
        HeadForm::Else(test, yes) => StmtKind::If(test.into_inner(), yes, Some(inner)),
        HeadForm::While(test) => StmtKind::While(test.into_inner(), inner),
        HeadForm::Do => do_end(alloc, cursor, depth, inner)?,
        HeadForm::For(start, test, step) => StmtKind::For(start, unboxed(test), step, inner),
    };
    whole(alloc, cursor, first, line, kind)
}

/// The outermost statement, from the innermost one: up to its end, or else, with `None`, up to the statement after an
/// `else`, whose head is then the last.
pub(crate) fn resume(
    alloc: Global,
    cursor: &mut Cursor<'_>,
    depth: usize,
    heads: &mut Items<Head>,
    inner: Boxed<Stmt>,
) -> Result<Option<Boxed<Stmt>>, SyntaxError>
    requires { length heads.old ≤ depth }
    ensures is { Resumes depth (nesting.resume depth heads.old (Ok (inner, cursor.old))) result heads.new cursor.new }
    ensures near { length heads.new ≤ length heads.old }
    ensures shorter { IfOk result (λ whole. IfNone whole (length cursor.new.rest < length cursor.old.rest)) }
{
    let mut stmt = inner;
    'outward: while let Some(head) = heads.pop() {
        match closed(alloc, cursor, depth - heads.len(), head, stmt)? {
            Front::Whole(whole) => stmt = whole,
            Front::Head(head) => {
                heads.push(head)?;
                return Ok(None);
            }
        }
    }
    Ok(Some(stmt))
}
