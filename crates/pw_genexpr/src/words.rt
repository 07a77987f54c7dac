//! How many words the code of an expression is.
ghost use Rattle.std.specs.Prelude.{◌≡◌, ◌+◌, ◌*◌, ◌<◌, ◌≤◌, length};
ghost use Rattle.pw_base.specs.Limits.{function_tokens, parameters};
ghost use Rattle.pw_tree.specs.TypedExpressions.{typed_expression_of, typed_expressions_of};
ghost use Rattle.pw_tree.specs.WellTypedExpressions.{expressions_in, expressions_in_all};
ghost use Rattle.pw_code.specs.ExpressionCode.{expression_words, arguments_words};
ghost use Rattle.pw_code.specs.Bounds.{HasShortCode};
ghost use Rattle.pw_genexpr.specs.Steps.Emitting.{HaveShortCode};

use crate::checks::{check_index_words, fault_words};
use crate::immediate::immediate_words;
use crate::operators::{operator_words, unary_words};
use pw_tree::{TExpr, TKind};

/// How many words the code of an expression is.
#[cycle(words)]
#[tactic(auto, using(crate::proofs::Arguments::count_of), unfolding(pw_code::specs::ExpressionCode::expression_words, pw_tree::specs::WellTypedExpressions::Throughout, pw_tree::specs::WellTypedExpressions::expressions_in))]
pub fn expression_words(e: &TExpr) -> u32
    requires { HasShortCode (typed_expression_of e.now) }
    ensures words { result ≡ expression_words (typed_expression_of e.now) }
    ensures few { result < 16 * expressions_in (typed_expression_of e.now) }
{
    match &e.kind {
        TKind::Num(value) => immediate_words(*value),
        TKind::Local(_) => 1,
        TKind::Var(_) => 3,
        TKind::Fun(_) => 2,
        TKind::Elem(_, size, index) => {
            expression_words(index.get()) + check_index_words(*size, e.line) + 5
        }
        TKind::Unary(op, operand) => expression_words(operand.get()) + unary_words(*op),
        TKind::Binary(op, _, l, r) => {
            expression_words(l.get()) + expression_words(r.get()) + operator_words(*op, e.line)
        }
        TKind::Cond(c, a, b) => {
            expression_words(c.get()) + expression_words(a.get()) + expression_words(b.get()) + 3
        }
        TKind::Call(_, arguments) => call_words(arguments.as_slice()) + 3,
        TKind::CallPtr(callee, arguments) => {
            let check = fault_words(e.line) + 1;
            call_words(arguments.as_slice()) + expression_words(callee.get()) + check + 2
        }
        TKind::Input => 2,
        TKind::Output(value) => expression_words(value.get()) + 2,
    }
}

/// How many words evaluate the arguments of a call, and load them into registers.
#[cycle(words)]
fn call_words(arguments: &[TExpr]) -> u32
    requires { HaveShortCode (typed_expressions_of arguments.now) }
    ensures words { result ≡ arguments_words (typed_expressions_of arguments.now) + length arguments.now }
    ensures few { result ≤ 16 * expressions_in_all (typed_expressions_of arguments.now) + parameters }
{
    let mut words = 0;
    for argument in arguments {
        words += expression_words(argument) + 2;
    }
    words
}
