//! Operands with their prefix operators, and binary operators (C17, 6.5.3 to 6.5.14).
ghost use Rattle.std.specs.Prelude.{◌-◌};
ghost use Rattle.pw_grammar.specs.Reading.Expressions as spec;
ghost use Rattle.pw_grammar.specs.Reading.Steps.{Reads};
ghost use Rattle.pw_parse.specs.Steps.Nests.{Nests};

use crate::cursor::Cursor;
use crate::expression_rules::ExpressionRules;
use crate::node::finished;
use crate::operator::{binary_operator, operators, wrapped};
use pw_grammar::SyntaxError;
use pw_tree::{Expr, ExprKind};
use sqlite_items::Boxed;
use std::alloc::Global;

impl<F: Fn(Global, &mut Cursor<'_>, usize) -> Result<Boxed<Expr>, SyntaxError>> ExpressionRules<F> {
    /// An operand with the prefix operators before it.
    #[tactic(auto, unfolding(pw_grammar::specs::Reading::Expressions::prefix, pw_grammar::specs::Reading::Expressions::wrap))]
    fn prefix(&self, cursor: &mut Cursor<'_>) -> Result<Boxed<Expr>, SyntaxError>
        requires { Nests self.now.depth (F.pre self.now.expr) (F.post self.now.expr) }
        ensures { Reads (spec.prefix (spec.expression self.now.depth) self.now.iterations cursor.old) result cursor.new }
    {
        let ops = operators(self.alloc, cursor, self.iterations)?;
        let at = cursor.at();
        let operand = self.postfix(cursor)?;
        Ok(wrapped(self.alloc, at, cursor.last(), ops, operand)?)
    }

    /// An expression of the level, which is that of its loosest operator; 2 has no binary operator.
    pub fn level(&self, cursor: &mut Cursor<'_>, level: usize) -> Result<Boxed<Expr>, SyntaxError>
        requires { Nests self.now.depth (F.pre self.now.expr) (F.post self.now.expr) }
        ensures { Reads (spec.level (spec.expression self.now.depth) self.now.iterations (level - 2) cursor.old) result cursor.new }
    {
        if level <= 2 {
            return self.prefix(cursor);
        }
        let first = cursor.at();
        let mut left = self.level(cursor, level - 1)?;
        for _iteration in 0..self.iterations {
            match binary_operator(cursor, level)? {
                None => return Ok(left),
                Some((op, line)) => {
                    let right = self.level(cursor, level - 1)?;
                    let kind = ExprKind::Binary(op, left, right);
                    left = finished(self.alloc, cursor, first, line, kind)?;
                }
            }
        }
        Ok(left)
    }
}
