//! Calls and indices (C17, 6.5.2).
ghost use Rattle.std.specs.Prelude.{[], ◌∷◌};
ghost use Rattle.pw_grammar.specs.Reading.Expressions as spec;
ghost use Rattle.pw_grammar.specs.Reading.Steps.{Reads};
ghost use Rattle.pw_parse.specs.Steps.Nests.{Nests};

use crate::cursor::Cursor;
use crate::expression_rules::ExpressionRules;
use crate::node::finished;
use pw_grammar::{Sort, SyntaxError};
use pw_tree::{Expr, ExprKind};
use sqlite_items::{Boxed, Items};
use std::alloc::Global;

impl<F: Fn(Global, &mut Cursor<'_>, usize) -> Result<Boxed<Expr>, SyntaxError>> ExpressionRules<F> {
    /// The arguments after these, each after its comma.
    fn more_arguments(
        &self,
        cursor: &mut Cursor<'_>,
        mut found: Items<Expr>,
    ) -> Result<Items<Expr>, SyntaxError>
        requires { Nests self.now.depth (F.pre self.now.expr) (F.post self.now.expr) }
        ensures { Reads (spec.more_arguments (spec.expression self.now.depth) self.now.iterations found cursor.old) result cursor.new }
    {
        for _iteration in 0..self.iterations {
            if !cursor.sees(Sort::Comma) {
                return Ok(found);
            }
            cursor.skip()?;
            found.push(self.expr(cursor)?.into_inner())?;
        }
        Ok(found)
    }

    /// One argument or more.
    #[tactic(auto, unfolding(pw_grammar::specs::Reading::Expressions::some_arguments))]
    fn some_arguments(&self, cursor: &mut Cursor<'_>) -> Result<Items<Expr>, SyntaxError>
        requires { Nests self.now.depth (F.pre self.now.expr) (F.post self.now.expr) }
        ensures { Reads (spec.some_arguments (spec.expression self.now.depth) self.now.iterations cursor.old) result cursor.new }
    {
        let mut found = Items::new(self.alloc);
        found.push(self.expr(cursor)?.into_inner())?;
        self.more_arguments(cursor, found)
    }

    /// The arguments of a call.
    #[tactic(auto, unfolding(pw_grammar::specs::Reading::Expressions::arguments))]
    fn arguments(&self, cursor: &mut Cursor<'_>) -> Result<Items<Expr>, SyntaxError>
        requires { Nests self.now.depth (F.pre self.now.expr) (F.post self.now.expr) }
        ensures { Reads (spec.arguments (spec.expression self.now.depth) self.now.iterations cursor.old) result cursor.new }
    {
        if cursor.sees(Sort::RightParen) {
            Ok(Items::new(self.alloc))
        } else {
            self.some_arguments(cursor)
        }
    }

    /// A call of the callee, whose first token has the number `first`.
    #[tactic(auto, unfolding(pw_grammar::specs::Reading::Expressions::call))]
    fn call(
        &self,
        cursor: &mut Cursor<'_>,
        first: u32,
        callee: Boxed<Expr>,
    ) -> Result<Boxed<Expr>, SyntaxError>
        requires { Nests self.now.depth (F.pre self.now.expr) (F.post self.now.expr) }
        ensures { Reads (spec.call (spec.expression self.now.depth) self.now.iterations first callee cursor.old) result cursor.new }
    {
        let line = cursor.skip()?;
        let arguments = self.arguments(cursor)?;
        cursor.expect(Sort::RightParen)?;
        finished(
            self.alloc,
            cursor,
            first,
            line,
            ExprKind::Call(callee, arguments),
        )
    }

    /// An index into the base, whose first token has the number `first`.
    #[tactic(auto, unfolding(pw_grammar::specs::Reading::Expressions::index))]
    fn index(
        &self,
        cursor: &mut Cursor<'_>,
        first: u32,
        base: Boxed<Expr>,
    ) -> Result<Boxed<Expr>, SyntaxError>
        requires { Nests self.now.depth (F.pre self.now.expr) (F.post self.now.expr) }
        ensures { Reads (spec.index (spec.expression self.now.depth) first base cursor.old) result cursor.new }
    {
        let line = cursor.skip()?;
        let index = self.expr(cursor)?;
        cursor.expect(Sort::RightBracket)?;
        finished(
            self.alloc,
            cursor,
            first,
            line,
            ExprKind::Index(base, index),
        )
    }

    /// The calls and indices after an expression whose first token has the number `first`.
    fn suffixes(
        &self,
        cursor: &mut Cursor<'_>,
        first: u32,
        mut left: Boxed<Expr>,
    ) -> Result<Boxed<Expr>, SyntaxError>
        requires { Nests self.now.depth (F.pre self.now.expr) (F.post self.now.expr) }
        ensures { Reads (spec.suffixes (spec.expression self.now.depth) self.now.iterations self.now.iterations first left cursor.old) result cursor.new }
    {
        for _iteration in 0..self.iterations {
            if cursor.sees(Sort::LeftParen) {
                left = self.call(cursor, first, left)?;
            } else if cursor.sees(Sort::LeftBracket) {
                left = self.index(cursor, first, left)?;
            } else {
                return Ok(left);
            }
        }
        Ok(left)
    }

    /// A primary expression, with the calls and indices after it.
    #[tactic(auto, unfolding(pw_grammar::specs::Reading::Expressions::postfix))]
    pub fn postfix(&self, cursor: &mut Cursor<'_>) -> Result<Boxed<Expr>, SyntaxError>
        requires { Nests self.now.depth (F.pre self.now.expr) (F.post self.now.expr) }
        ensures { Reads (spec.postfix (spec.expression self.now.depth) self.now.iterations cursor.old) result cursor.new }
    {
        let first = cursor.at();
        let left = self.primary(cursor)?;
        self.suffixes(cursor, first, left)
    }
}
