//! Statements, which hold expressions and statements. What holds statements takes their reader as a parameter, so that
//! each rule is proved by itself.
ghost use Rattle.std.specs.Prelude.{◌≡◌, []};
ghost use Rattle.pw_grammar.specs.Reading.Steps.{Reads};
ghost use Rattle.pw_grammar.specs.Reading.Expressions as expressions;
ghost use Rattle.pw_grammar.specs.Reading.Statements as spec;
ghost use Rattle.pw_parse.specs.Steps.Heads as fronts;
ghost use Rattle.pw_parse.specs.Steps.Nests.{NestsStatements};

use crate::control_head::{Front, Head, maybe_head, resume, whole};
use crate::cursor::Cursor;
use crate::for_clauses::maybe_expression;
use crate::node::unboxed;
use crate::simple_statement::{evaluated, local};
use crate::types::begins_type;
use pw_grammar::{Sort, SyntaxError};
use pw_tree::{Stmt, StmtKind};
use sqlite_items::{Boxed, Items};
use std::alloc::Global;

/// The rules of statements, over a reader of those that stand in others.
#[derive(Clone, Copy)]
pub(crate) struct StatementRules<S> {
    pub alloc: Global,
    /// How deep expressions may nest, and how often a loop may iterate.
    pub depth: usize,
    /// How deep statements in others may nest.
    pub inner: usize,
    pub stmt: S,
}

/// A statement, in which expressions and statements nest at most this deep.
pub(crate) fn statement(
    alloc: Global,
    cursor: &mut Cursor<'_>,
    depth: usize,
) -> Result<Boxed<Stmt>, SyntaxError>
    ensures { Reads (spec.statement depth cursor.old) result cursor.new }
{
    let mut heads = Items::new(alloc);
    'inward: loop {
        let left = depth - heads.len();
        if left == 0 {
            return Err(cursor.refuse());
        }
        let reader = StatementRules {
            alloc,
            depth: left,
            inner: left - 1,
            stmt: statement,
        };
        match reader.front(cursor)? {
            Front::Head(head) => heads.push(head)?,
            Front::Whole(stmt) => {
                if let Some(whole) = resume(alloc, cursor, depth, &mut heads, stmt)? {
                    return Ok(whole);
                }
            }
        }
    }
}

/// The statements of a function's body.
pub(crate) fn inner_statements(
    alloc: Global,
    cursor: &mut Cursor<'_>,
    depth: usize,
) -> Result<Items<Stmt>, SyntaxError>
    ensures { Reads (spec.elements (expressions.expression depth) (spec.statement depth) depth [] cursor.old) result cursor.new }
{
    StatementRules {
        alloc,
        depth,
        inner: depth,
        stmt: statement,
    }
    .elements(cursor)
}

/// `;`
#[tactic(auto, unfolding(pw_grammar::specs::Reading::Statements::empty))]
fn empty(cursor: &mut Cursor<'_>) -> Result<StmtKind, SyntaxError>
    ensures { Reads (spec.empty cursor.old) result cursor.new }
{
    cursor.skip()?;
    Ok(StmtKind::Empty)
}

/// `return e ;`, or `return ;`
#[tactic(auto, unfolding(pw_grammar::specs::Reading::Statements::leave))]
fn leave(alloc: Global, cursor: &mut Cursor<'_>, depth: usize) -> Result<StmtKind, SyntaxError>
    ensures { Reads (spec.leave (expressions.expression depth) cursor.old) result cursor.new }
{
    cursor.skip()?;
    let value = maybe_expression(alloc, cursor, depth, Sort::Semicolon)?;
    cursor.expect(Sort::Semicolon)?;
    Ok(StmtKind::Return(unboxed(value)))
}

/// `break ;`
#[tactic(auto, unfolding(pw_grammar::specs::Reading::Statements::jump))]
fn break_off(cursor: &mut Cursor<'_>) -> Result<StmtKind, SyntaxError>
    ensures { Reads (spec.jump StmtKind.Break cursor.old) result cursor.new }
{
    cursor.skip()?;
    cursor.expect(Sort::Semicolon)?;
    Ok(StmtKind::Break)
}

/// `continue ;`
#[tactic(auto, unfolding(pw_grammar::specs::Reading::Statements::jump))]
fn go_on(cursor: &mut Cursor<'_>) -> Result<StmtKind, SyntaxError>
    ensures { Reads (spec.jump StmtKind.Continue cursor.old) result cursor.new }
{
    cursor.skip()?;
    cursor.expect(Sort::Semicolon)?;
    Ok(StmtKind::Continue)
}

impl<S: Fn(Global, &mut Cursor<'_>, usize) -> Result<Boxed<Stmt>, SyntaxError>> StatementRules<S> {
    /// A statement that stands in another.
    fn part(&self, cursor: &mut Cursor<'_>) -> Result<Boxed<Stmt>, SyntaxError>
        requires { NestsStatements self.now.inner (S.pre self.now.stmt) (S.post self.now.stmt) }
        ensures { Reads (spec.statement self.now.inner cursor.old) result cursor.new }
    {
        (self.stmt)(self.alloc, cursor, self.inner)
    }

    /// A statement of a block, or a local's declaration.
    #[tactic(auto, unfolding(pw_grammar::specs::Reading::Statements::element))]
    fn element(&self, cursor: &mut Cursor<'_>) -> Result<Boxed<Stmt>, SyntaxError>
        requires { NestsStatements self.now.inner (S.pre self.now.stmt) (S.post self.now.stmt) }
        ensures { Reads (spec.element (expressions.expression self.now.depth) (spec.statement self.now.inner) cursor.old) result cursor.new }
    {
        if begins_type(cursor.peek()) {
            local(self.alloc, cursor, self.depth)
        } else {
            self.part(cursor)
        }
    }

    /// What stands in a block, up to its closing brace.
    pub fn elements(&self, cursor: &mut Cursor<'_>) -> Result<Items<Stmt>, SyntaxError>
        requires { NestsStatements self.now.inner (S.pre self.now.stmt) (S.post self.now.stmt) }
        ensures { Reads (spec.elements (expressions.expression self.now.depth) (spec.statement self.now.inner) self.now.depth [] cursor.old) result cursor.new }
    {
        let mut found = Items::new(self.alloc);
        for _iteration in 0..self.depth {
            if cursor.sees(Sort::RightBrace) {
                return Ok(found);
            }
            found.push(self.element(cursor)?.into_inner())?;
        }
        Ok(found)
    }

    /// `{ statements }`
    #[tactic(auto, unfolding(pw_grammar::specs::Reading::Statements::block))]
    fn block(&self, cursor: &mut Cursor<'_>) -> Result<StmtKind, SyntaxError>
        requires { NestsStatements self.now.inner (S.pre self.now.stmt) (S.post self.now.stmt) }
        ensures { Reads (spec.block (expressions.expression self.now.depth) (spec.statement self.now.inner) self.now.depth cursor.old) result cursor.new }
    {
        cursor.skip()?;
        let body = self.elements(cursor)?;
        cursor.expect(Sort::RightBrace)?;
        Ok(StmtKind::Block(body))
    }

    /// What a statement without a head is, by its first token.
    fn headless(&self, cursor: &mut Cursor<'_>, sort: Sort) -> Result<StmtKind, SyntaxError>
        requires { NestsStatements self.now.inner (S.pre self.now.stmt) (S.post self.now.stmt) }
        ensures { Reads (fronts.headless_by (expressions.expression self.now.depth) (spec.statement self.now.inner) self.now.depth sort cursor.old) result cursor.new }
    {
        match sort {
            Sort::Semicolon => empty(cursor),
            Sort::LeftBrace => self.block(cursor),
            Sort::Return => leave(self.alloc, cursor, self.depth),
            Sort::Break => break_off(cursor),
            Sort::Continue => go_on(cursor),
            _ => Ok(evaluated(self.alloc, cursor, self.depth)?.into_inner()),
        }
    }

    /// A statement's head, or a whole statement without one.
    #[tactic(auto, unfolding(crate::specs::Steps::Heads::front))]
    fn front(&self, cursor: &mut Cursor<'_>) -> Result<Front, SyntaxError>
        requires { NestsStatements self.now.inner (S.pre self.now.stmt) (S.post self.now.stmt) }
        ensures { Reads (fronts.front (expressions.expression self.now.depth) (spec.statement self.now.inner) self.now.depth cursor.old) result cursor.new }
    {
        let first = cursor.at();
        let line = cursor.line();
        let sort = cursor.peek();
        if let Some(form) = maybe_head(self.alloc, cursor, self.depth, sort)? {
            return Ok(Front::Head(Head { first, line, form }));
        }
        let kind = self.headless(cursor, sort)?;
        whole(self.alloc, cursor, first, line, kind)
    }
}
