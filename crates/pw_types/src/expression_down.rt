//! The first step of judging an expression.
ghost use Rattle.std.specs.Prelude.{◌≡◌, ◌+◌, ◌<◌, ◌≤◌, IfOk};
ghost use Rattle.pw_tree.specs.Expressions.{expression_of, expressions_of};
ghost use Rattle.pw_types.specs.Steps.CheckingExpressions as spec;
ghost use Rattle.pw_types.specs.Steps.ResumingExpressions.{ContinuesWith, call_from, index_from, step_size, size, sizes};

use crate::expression_call::call_function;
use crate::expression_form::{constant, input};
use crate::expression_name::{named_value, note};
use crate::expression_step::{Array, ExpressionFrame, ExpressionStep, Head};
use crate::expression_word::{array, function};
use crate::fault::Refusal;
use crate::role::Role;
use crate::scope::Scope;
use pw_tree::{Expr, ExprKind};
use std::alloc::Global;

/// The first step of a call, from its callee on. A function's name as a callee is noted, and is no value that is judged.
fn call<'a>(
    alloc: Global,
    scope: &'a Scope<'a>,
    used: &mut Vec<usize>,
    head: Head,
    callee: &'a Expr,
    es: &'a [Expr],
) -> Result<ExpressionStep<'a>, Refusal>
    ensures continues { ContinuesWith scope.now (call_from scope.now head (expression_of callee.now) (expressions_of es.now)) used.old.items used.new.items result }
    ensures smaller { IfOk result (λ step. step_size step < 3 + (size (expression_of callee.now) + sizes (expressions_of es.now))) }
{
    match function(scope, callee) {
        None => Ok(ExpressionStep::Part(ExpressionFrame::Callee(head, es), Role::Callee, callee)),
        Some(named) => {
            note(used, named.number)?;
            call_function(alloc, scope, head, named.file, named.sig, es)
        }
    }
}

/// The first step of an element, from its base on. An array's name as a base is noted; any other base is judged in the
/// element's stead, since it breaks a rule.
fn element<'a>(
    alloc: Global,
    scope: &'a Scope<'a>,
    used: &mut Vec<usize>,
    head: Head,
    base: &'a Expr,
    i: &'a Expr,
) -> Result<ExpressionStep<'a>, Refusal>
    ensures continues { ContinuesWith scope.now (index_from scope.now head (expression_of base.now) (expression_of i.now)) used.old.items used.new.items result }
    ensures smaller { IfOk result (λ step. step_size step ≤ 1 + (size (expression_of base.now) + size (expression_of i.now))) }
{
    match array(scope, base) {
        None => Ok(ExpressionStep::Instead(Role::Base, base)),
        Some(named) => {
            let reference = scope.variable_reference(alloc, named.file)?;
            note(used, named.number)?;
            let array = Array {
                reference,
                ty: named.ty,
                size: named.size,
            };
            Ok(ExpressionStep::Part(ExpressionFrame::Index(head, array), Role::Value, i))
        }
    }
}

/// The first step of judging an expression in its role.
#[tactic(auto, using(crate::proofs::Phrases::phrase_forms), unfolding(crate::specs::Steps::CheckingExpressions::checked, crate::specs::Steps::ResumingExpressions::size))]
pub(crate) fn down<'a>(
    alloc: Global,
    scope: &'a Scope<'a>,
    used: &mut Vec<usize>,
    role: Role,
    e: &'a Expr,
) -> Result<ExpressionStep<'a>, Refusal>
    ensures continues { ContinuesWith scope.now (spec.checked scope.now role (expression_of e.now)) used.old.items used.new.items result }
    ensures smaller { IfOk result (λ step. step_size step < size (expression_of e.now)) }
{
    let head = Head {
        role,
        last: e.last,
        line: e.line,
    };
    match &e.kind {
        ExprKind::Num(value, unsigned) => Ok(ExpressionStep::Done(constant(
            alloc, head, *value, *unsigned,
        )?)),
        ExprKind::Word(name) => Ok(ExpressionStep::Done(named_value(
            alloc, scope, used, head, name,
        )?)),
        ExprKind::Unary(op, x) => Ok(ExpressionStep::Part(
            ExpressionFrame::Operand(head, *op),
            Role::Value,
            x.get(),
        )),
        ExprKind::Binary(op, l, r) => {
            Ok(ExpressionStep::Part(
                ExpressionFrame::Left(head, *op, r.get()),
                Role::Value,
                l.get(),
            ))
        }
        ExprKind::Cond(c, a, b) => {
            Ok(ExpressionStep::Part(
                ExpressionFrame::Condition(head, a.get(), b.get()),
                Role::Value,
                c.get(),
            ))
        }
        ExprKind::Call(callee, es) => call(alloc, scope, used, head, callee.get(), es.as_slice()),
        ExprKind::Index(base, i) => element(alloc, scope, used, head, base.get(), i.get()),
        ExprKind::Input => Ok(ExpressionStep::Done(input(alloc, head)?)),
        ExprKind::Output(x) => Ok(ExpressionStep::Part(
            ExpressionFrame::Written(head),
            Role::Written,
            x.get(),
        )),
    }
}
