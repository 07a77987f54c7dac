//! Judging an expression, by a loop over frames that wait for its parts, so that deep ones need no deep stack.
ghost use Rattle.std.specs.Prelude.{◌≡◌, [], ◌∷◌, ◌++◌, None, OnOk};
ghost use Rattle.pw_tree.specs.Expressions.{expression_of};
ghost use Rattle.pw_types.specs.declared.role.Role.TheVariants.{Base};
ghost use Rattle.pw_types.specs.Typed.{array_of};
ghost use Rattle.pw_types.specs.Steps.Judged.{JudgesExpression};
ghost use Rattle.pw_types.specs.Steps.CheckingExpressions.{checked};
ghost use Rattle.pw_types.specs.Steps.ResumingExpressions.{GivesWith};

use crate::expression_down::down;
use crate::expression_step::{ExpressionFrame, ExpressionStep};
use crate::expression_up::up;
use crate::fault::Refusal;
use crate::role::Role;
use crate::scope::Scope;
use crate::typed::Typed;
use pw_base::NoMemory;
use pw_tree::Expr;
use sqlite_items::Items;
use std::alloc::Global;

/// Puts a frame on top.
fn push<'a>(
    frames: &mut Items<ExpressionFrame<'a>>,
    frame: ExpressionFrame<'a>,
) -> Result<(), NoMemory>
    ensures { OnOk result (frames.new ≡ frames.old ++ frame.entry ∷ []) }
{
    frames.push(frame)?;
    Ok(())
}

/// An expression in its role, step by step.
fn walk<'a>(
    alloc: Global,
    scope: &'a Scope<'a>,
    used: &mut Vec<usize>,
    role: Role,
    e: &'a Expr,
) -> Result<Typed, Refusal>
    ensures { GivesWith (checked scope.now role (expression_of e.now)) used.old.items used.new.items result }
{
    let mut frames = Items::new(alloc);
    let mut step = ExpressionStep::Instead(role, e);
    'steps: loop {
        step = match step {
            ExpressionStep::Part(frame, role, e) => {
                push(&mut frames, frame)?;
                down(alloc, scope, used, role, e)?
            }
            ExpressionStep::Instead(role, e) => down(alloc, scope, used, role, e)?,
            ExpressionStep::Done(typed) => match frames.pop() {
                None => return Ok(typed),
                Some(frame) => up(alloc, frame, typed)?,
            },
        };
    }
}

/// The typed tree of an expression in its role, or its first fault. The names at file scope that it uses are noted after
/// those in `used`, by their numbers.
pub fn judge(
    alloc: Global,
    scope: &Scope<'_>,
    used: &mut Vec<usize>,
    role: Role,
    e: &Expr,
) -> Result<Typed, Refusal>
    requires { role ≡ Base → array_of scope.now (expression_of e.now) ≡ None }
    ensures { JudgesExpression scope.now role (expression_of e.now) used.old.items used.new.items result }
{
    walk(alloc, scope, used, role, e)
}
