//! Primary expressions (C17, 6.5.1), input and output.
ghost use Rattle.pw_grammar.specs.Reading.Expressions as spec;
ghost use Rattle.pw_grammar.specs.Reading.Steps.{Reads, either, refuse};
ghost use Rattle.pw_parse.specs.Steps.Nests.{Nests};

use crate::cursor::Cursor;
use crate::expression_rules::ExpressionRules;
use crate::node::finished;
use pw_grammar::{Sort, SyntaxError};
use pw_tree::{Expr, ExprKind};
use sqlite_items::Boxed;
use std::alloc::Global;

/// An identifier.
#[tactic(auto, unfolding(pw_grammar::specs::Reading::Expressions::identifier, pw_grammar::specs::Reading::Steps::name))]
fn identifier(alloc: Global, cursor: &mut Cursor<'_>) -> Result<Boxed<Expr>, SyntaxError>
    ensures { Reads (either Sort.Name spec.identifier refuse cursor.old) result cursor.new }
{
    let first = cursor.at();
    let line = cursor.line();
    let name = cursor.name(alloc)?;
    finished(alloc, cursor, first, line, ExprKind::Word(name))
}

/// A constant.
#[tactic(auto, unfolding(pw_grammar::specs::Reading::Expressions::constant))]
fn constant(alloc: Global, cursor: &mut Cursor<'_>) -> Result<Boxed<Expr>, SyntaxError>
    ensures { Reads (spec.constant cursor.old) result cursor.new }
{
    let first = cursor.at();
    let line = cursor.line();
    let (value, unsigned) = cursor.value()?;
    finished(alloc, cursor, first, line, ExprKind::Num(value, unsigned))
}

/// `__in()`
#[tactic(auto, unfolding(pw_grammar::specs::Reading::Expressions::input))]
fn input(alloc: Global, cursor: &mut Cursor<'_>) -> Result<Boxed<Expr>, SyntaxError>
    ensures { Reads (spec.input cursor.old) result cursor.new }
{
    let first = cursor.at();
    let line = cursor.skip()?;
    cursor.expect(Sort::LeftParen)?;
    cursor.expect(Sort::RightParen)?;
    finished(alloc, cursor, first, line, ExprKind::Input)
}

impl<F: Fn(Global, &mut Cursor<'_>, usize) -> Result<Boxed<Expr>, SyntaxError>> ExpressionRules<F> {
    /// `(e)`
    #[tactic(auto, unfolding(pw_grammar::specs::Reading::Expressions::bracketed))]
    fn bracketed(&self, cursor: &mut Cursor<'_>) -> Result<Boxed<Expr>, SyntaxError>
        requires { Nests self.now.depth (F.pre self.now.expr) (F.post self.now.expr) }
        ensures { Reads (spec.bracketed (spec.expression self.now.depth) cursor.old) result cursor.new }
    {
        cursor.skip()?;
        let inner = self.expr(cursor)?;
        cursor.expect(Sort::RightParen)?;
        Ok(inner)
    }

    /// `__out(e)`
    #[tactic(auto, unfolding(pw_grammar::specs::Reading::Expressions::output))]
    fn output(&self, cursor: &mut Cursor<'_>) -> Result<Boxed<Expr>, SyntaxError>
        requires { Nests self.now.depth (F.pre self.now.expr) (F.post self.now.expr) }
        ensures { Reads (spec.output (spec.expression self.now.depth) cursor.old) result cursor.new }
    {
        let first = cursor.at();
        let line = cursor.skip()?;
        cursor.expect(Sort::LeftParen)?;
        let value = self.expr(cursor)?;
        cursor.expect(Sort::RightParen)?;
        finished(self.alloc, cursor, first, line, ExprKind::Output(value))
    }

    /// A primary expression.
    #[tactic(auto, unfolding(pw_grammar::specs::Reading::Expressions::primary))]
    pub fn primary(&self, cursor: &mut Cursor<'_>) -> Result<Boxed<Expr>, SyntaxError>
        requires { Nests self.now.depth (F.pre self.now.expr) (F.post self.now.expr) }
        ensures { Reads (spec.primary (spec.expression self.now.depth) cursor.old) result cursor.new }
    {
        match cursor.peek() {
            Sort::Name => identifier(self.alloc, cursor),
            Sort::Number | Sort::Character => constant(self.alloc, cursor),
            Sort::LeftParen => self.bracketed(cursor),
            Sort::Input => input(self.alloc, cursor),
            Sort::Output => self.output(cursor),
            _ => Err(cursor.refuse()),
        }
    }
}
