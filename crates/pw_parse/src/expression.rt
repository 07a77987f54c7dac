//! Whole expressions: an operand of binary operators, or a choice `test ? a : b` (C17, 6.5.15).
ghost use Rattle.pw_grammar.specs.Reading.Expressions as spec;
ghost use Rattle.pw_grammar.specs.Reading.Steps.{Reads};
ghost use Rattle.pw_parse.specs.Steps.Nests.{Nests};

use crate::cursor::Cursor;
use crate::expression_rules::ExpressionRules;
use crate::node::finished;
use pw_grammar::{Sort, SyntaxError};
use pw_tree::{Expr, ExprKind};
use sqlite_items::Boxed;
use std::alloc::Global;

/// The loosest level of the binary operators.
const LOOSEST: usize = 12;

impl<F: Fn(Global, &mut Cursor<'_>, usize) -> Result<Boxed<Expr>, SyntaxError>> ExpressionRules<F> {
    /// The branches of a choice whose first token has the number `first`.
    #[tactic(auto, unfolding(pw_grammar::specs::Reading::Expressions::branches))]
    fn branches(
        &self,
        cursor: &mut Cursor<'_>,
        first: u32,
        test: Boxed<Expr>,
    ) -> Result<Boxed<Expr>, SyntaxError>
        requires { Nests self.now.depth (F.pre self.now.expr) (F.post self.now.expr) }
        ensures { Reads (spec.branches (spec.expression self.now.depth) first test cursor.old) result cursor.new }
    {
        let line = cursor.skip()?;
        let a = self.expr(cursor)?;
        cursor.expect(Sort::Colon)?;
        let b = self.expr(cursor)?;
        finished(self.alloc, cursor, first, line, ExprKind::Cond(test, a, b))
    }

    /// A choice, or an expression of a tighter level.
    #[tactic(auto, unfolding(pw_grammar::specs::Reading::Expressions::choice))]
    pub fn choice(&self, cursor: &mut Cursor<'_>) -> Result<Boxed<Expr>, SyntaxError>
        requires { Nests self.now.depth (F.pre self.now.expr) (F.post self.now.expr) }
        ensures { Reads (spec.choice (spec.expression self.now.depth) self.now.iterations cursor.old) result cursor.new }
    {
        let first = cursor.at();
        let test = self.level(cursor, LOOSEST)?;
        if cursor.sees(Sort::Question) {
            self.branches(cursor, first, test)
        } else {
            Ok(test)
        }
    }
}

/// An expression (C17, 6.5.15) whose nesting and whose lists are bounded by `depth`.
pub(crate) fn expression(
    alloc: Global,
    cursor: &mut Cursor<'_>,
    depth: usize,
) -> Result<Boxed<Expr>, SyntaxError>
    ensures { Reads (spec.expression depth cursor.old) result cursor.new }
{
    if depth == 0 {
        return Err(cursor.refuse());
    }
    ExpressionRules {
        alloc,
        iterations: depth,
        depth: depth - 1,
        expr: expression,
    }
    .choice(cursor)
}
