//! The rules of expressions, over a reader of the expressions inside, so that each rule is proved by itself.
ghost use Rattle.pw_grammar.specs.Reading.Expressions as spec;
ghost use Rattle.pw_grammar.specs.Reading.Steps.{Reads};
ghost use Rattle.pw_parse.specs.Steps.Nests.{Nests};

use crate::cursor::Cursor;
use pw_grammar::SyntaxError;
use pw_tree::Expr;
use sqlite_items::Boxed;
use std::alloc::Global;

/// What the rules of expressions read with.
#[derive(Clone, Copy)]
pub(crate) struct ExpressionRules<F> {
    pub alloc: Global,
    /// How often a loop may iterate; a number above that of the tokens is enough.
    pub iterations: usize,
    /// How deep the expressions inside may nest; the same is enough.
    pub depth: usize,
    /// Reads an expression, to a depth.
    pub expr: F,
}

impl<F: Fn(Global, &mut Cursor<'_>, usize) -> Result<Boxed<Expr>, SyntaxError>> ExpressionRules<F> {
    /// An expression inside.
    pub fn expr(&self, cursor: &mut Cursor<'_>) -> Result<Boxed<Expr>, SyntaxError>
        requires { Nests self.now.depth (F.pre self.now.expr) (F.post self.now.expr) }
        ensures { Reads (spec.expression self.now.depth cursor.old) result cursor.new }
    {
        (self.expr)(self.alloc, cursor, self.depth)
    }
}
