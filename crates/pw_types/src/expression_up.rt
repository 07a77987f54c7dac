//! What comes after a part of an expression that was judged.
ghost use Rattle.std.specs.Prelude.{◌<◌, IfOk};
ghost use Rattle.pw_types.specs.Steps.ResumingExpressions.{valued, resumed, ContinuesInEach, step_size, frame_size};

use crate::expression_call::{after_argument, call_through};
use crate::expression_form::{binary, choice, element, output, unary};
use crate::expression_step::{ExpressionFrame, ExpressionStep};
use crate::fault::Refusal;
use crate::role::Role;
use crate::typed::Typed;
use std::alloc::Global;

/// The step after the part that the frame waits for.
pub(crate) fn up<'a>(
    alloc: Global,
    frame: ExpressionFrame<'a>,
    typed: Typed,
) -> Result<ExpressionStep<'a>, Refusal>
    ensures continues { ContinuesInEach (λ scope. resumed scope frame.entry (valued typed)) result }
    ensures smaller { IfOk result (λ step. step_size step < frame_size frame.entry) }
{
    match frame {
        ExpressionFrame::Operand(head, op) => Ok(ExpressionStep::Done(unary(
            alloc, head, op, typed,
        )?)),
        ExpressionFrame::Left(head, op, r) => {
            Ok(ExpressionStep::Part(ExpressionFrame::Right(head, op, typed), Role::Value, r))
        }
        ExpressionFrame::Right(head, op, l) => Ok(ExpressionStep::Done(binary(
            alloc, head, op, l, typed,
        )?)),
        ExpressionFrame::Condition(head, a, b) => {
            Ok(ExpressionStep::Part(ExpressionFrame::First(head, typed, b), Role::Value, a))
        }
        ExpressionFrame::First(head, c, b) => {
            Ok(ExpressionStep::Part(ExpressionFrame::Second(head, c, typed), Role::Value, b))
        }
        ExpressionFrame::Second(head, c, a) => Ok(ExpressionStep::Done(choice(
            alloc, head, c, a, typed,
        )?)),
        ExpressionFrame::Callee(head, es) => call_through(alloc, head, typed, es),
        ExpressionFrame::Argument(call, taken, params, rest) => {
            after_argument(alloc, call, taken, params, rest, typed)
        }
        ExpressionFrame::Index(head, array) => Ok(ExpressionStep::Done(element(
            alloc, head, array, typed,
        )?)),
        ExpressionFrame::Written(head) => Ok(ExpressionStep::Done(output(alloc, head, typed)?)),
    }
}
