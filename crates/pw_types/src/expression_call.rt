//! Calls (C17, 6.5.2.2).
ghost use Rattle.std.specs.Prelude.{◌≡◌, ◌+◌, ◌<◌, ◌≤◌, Some, List, not, nat_eq, length, IfOk};
ghost use Rattle.pw_tree.specs.Expressions.{expressions_of};
ghost use Rattle.pw_types.specs.Scopes.{function_reference};
ghost use Rattle.pw_types.specs.Expressions.{first_parameter, how_many};
ghost use Rattle.pw_types.specs.Steps.CheckingExpressions as spec;
ghost use Rattle.pw_types.specs.Steps.ResumingExpressions.{valued, aim_of, begun, direct_call_from, pointer_call_from, calling_of, taken_of, listed, Gives, Continues, ContinuesInEach, step_size, sizes};

use crate::expression_form::{CAP, more};
use crate::expression_node::{fault, finish, node, type_of};
use crate::expression_step::{
    Arguments, Call, CallTarget, ExpressionFrame, ExpressionStep, Head, Parameters,
};
use crate::fault::Refusal;
use crate::names::File;
use crate::role::Role;
use crate::rule::Rule;
use crate::scope::Scope;
use crate::typed::Typed;
use pw_base::NoMemory;
use pw_tree::{Expr, Ref, Sig, TExpr, TKind, Ty};
use sqlite_items::Items;
use std::alloc::Global;

/// The type of the first parameter that is left, where there is one.
fn first(params: Parameters<'_>) -> Option<Ty>
    ensures { result ≡ first_parameter (Some (listed params.entry)) }
{
    match params {
        Parameters::Listed([]) => None,
        Parameters::Listed([ty, ..]) => Some(*ty),
        Parameters::Longs(k) => { if k == 0 { None } else { Some(Ty::Long) } }
    }
}

/// The parameters after the first.
fn others<'a>(params: Parameters<'a>) -> Parameters<'a>
    ensures { listed result ≡ spec.others_wanted (listed params.entry) }
{
    match params {
        Parameters::Listed([]) => params,
        Parameters::Listed([_, more @ ..]) => Parameters::Listed(more),
        Parameters::Longs(k) => Parameters::Longs(k.saturating_sub(1)),
    }
}

/// So many trees and so many values more, or one more than the limit where these are more.
fn after(trees: &Items<TExpr>, values: u32) -> u32
    ensures { result ≡ spec.capped (length trees.now + values) }
{
    more(trees.len().min(CAP as usize) as u32, values)
}

/// The arguments with one more.
fn take(mut taken: Arguments, typed: Typed) -> Result<Arguments, NoMemory>
    ensures { IfOk result (λ more. taken_of more ≡ spec.taking (taken_of taken) (valued typed)) }
{
    let one = after(&taken.trees, typed.held.max(1));
    taken.held = taken.held.max(one);
    taken.trees.push(typed.tree.into_inner())?;
    Ok(taken)
}

/// A call of a function by its name.
#[tactic(auto, using(crate::proofs::Trees::calls))]
fn direct_call(
    alloc: Global,
    head: Head,
    name: Ref,
    ty: Ty,
    taken: Arguments,
) -> Result<Typed, NoMemory>
    ensures { IfOk result (λ call. valued call ≡ spec.called (spec.named name ty) head (taken_of taken)) }
{
    node(alloc, head, ty, TKind::Call(name, taken.trees), taken.held)
}

/// A call through a pointer.
#[tactic(auto, using(crate::proofs::Trees::calls))]
fn pointer_call(
    alloc: Global,
    head: Head,
    callee: Typed,
    taken: Arguments,
) -> Result<Typed, NoMemory>
    ensures { IfOk result (λ call. valued call ≡ spec.called (spec.through (valued callee)) head (taken_of taken)) }
{
    let held = taken.held.max(after(&taken.trees, callee.held));
    let kind = TKind::CallPtr(callee.tree, taken.trees);
    node(alloc, head, Ty::Long, kind, held)
}

/// A call whose arguments are judged. Refusals: as in `finish`.
fn finish_call(alloc: Global, call: Call, taken: Arguments) -> Result<Typed, Refusal>
    ensures { Gives (spec.call_value (calling_of call) (taken_of taken)) result }
{
    let Call {
        head,
        target,
        other_count,
    } = call;
    match target {
        CallTarget::Direct(name, ty) => {
            finish(
                head,
                other_count,
                direct_call(alloc, head, name, ty, taken)?,
            )
        }
        CallTarget::Through(callee) => {
            finish(head, other_count, pointer_call(alloc, head, callee, taken)?)
        }
    }
}

/// The next argument of a call, or the call where none is left.
#[tactic(auto, unfolding(crate::specs::Steps::CheckingExpressions::checked_arguments, crate::specs::Steps::ResumingExpressions::sizes))]
pub(crate) fn go_on<'a>(
    alloc: Global,
    call: Call,
    taken: Arguments,
    params: Parameters<'a>,
    rest: &'a [Expr],
) -> Result<ExpressionStep<'a>, Refusal>
    ensures continues { ContinuesInEach (λ scope. spec.checked_arguments scope (calling_of call) (taken_of taken) (listed params.entry) (expressions_of rest.now)) result }
    ensures smaller { IfOk result (λ step. step_size step ≤ sizes (expressions_of rest.now)) }
{
    match rest {
        [] => Ok(ExpressionStep::Done(finish_call(alloc, call, taken)?)),
        [e, more @ ..] => {
            let role = Role::Argument(first(params));
            let frame = ExpressionFrame::Argument(call, taken, others(params), more);
            Ok(ExpressionStep::Part(frame, role, e))
        }
    }
}

/// How many parameters there are.
fn count(params: Parameters<'_>) -> usize
    ensures { result ≡ length (listed params.entry) }
{
    match params {
        Parameters::Listed(tys) => tys.len(),
        Parameters::Longs(k) => usize::from(k),
    }
}

/// Whether a call has another number of arguments than its callee has parameters.
#[tactic(auto, using(crate::proofs::Counted::how_many_phrases))]
fn is_other_count(params: Parameters<'_>, es: &[Expr]) -> bool
    ensures { result ≡ not (nat_eq (length (listed params.entry)) (how_many (expressions_of es.now))) }
{
    count(params) != es.len()
}

/// The first argument of a call, or the call where it has none.
fn begin<'a>(
    alloc: Global,
    head: Head,
    target: CallTarget,
    params: Parameters<'a>,
    es: &'a [Expr],
) -> Result<ExpressionStep<'a>, Refusal>
    ensures continues { ContinuesInEach (λ scope. begun scope head (aim_of target) (listed params.entry) (expressions_of es.now)) result }
    ensures smaller { IfOk result (λ step. step_size step ≤ sizes (expressions_of es.now)) }
{
    let call = Call {
        head,
        target,
        other_count: is_other_count(params, es),
    };
    let none = Arguments {
        trees: Items::new(alloc),
        held: 0,
    };
    go_on(alloc, call, none, params, es)
}

/// A call of a function by its name, whose use was noted.
pub(crate) fn call_function<'a>(
    alloc: Global,
    scope: &Scope<'_>,
    head: Head,
    file: &File,
    sig: &'a Sig,
    es: &'a [Expr],
) -> Result<ExpressionStep<'a>, Refusal>
    ensures continues { Continues scope.now (direct_call_from scope.now head (record { reference = function_reference scope.now file.now; sig = sig.now }) (expressions_of es.now)) result }
    ensures smaller { IfOk result (λ step. step_size step ≤ sizes (expressions_of es.now)) }
{
    let name = scope.function_reference(alloc, file)?;
    let params = Parameters::Listed(sig.params.as_slice());
    begin(
        alloc,
        head,
        CallTarget::Direct(name, sig.result),
        params,
        es,
    )
}

/// A call through what was judged as the callee. Refusals: `NotCallable` of what is no pointer.
pub(crate) fn call_through<'a>(
    alloc: Global,
    head: Head,
    callee: Typed,
    es: &'a [Expr],
) -> Result<ExpressionStep<'a>, Refusal>
    ensures continues { ContinuesInEach (λ scope. pointer_call_from scope head (expressions_of es.now) (valued callee)) result }
    ensures smaller { IfOk result (λ step. step_size step ≤ sizes (expressions_of es.now)) }
{
    match type_of(&callee) {
        Ty::Fn(k) => begin(
            alloc,
            head,
            CallTarget::Through(callee),
            Parameters::Longs(k),
            es,
        ),
        Ty::Void | Ty::Long | Ty::Ulong => Err(fault(head, Rule::NotCallable)),
    }
}

/// What comes after an argument of a call.
pub(crate) fn after_argument<'a>(
    alloc: Global,
    call: Call,
    taken: Arguments,
    params: Parameters<'a>,
    rest: &'a [Expr],
    typed: Typed,
) -> Result<ExpressionStep<'a>, Refusal>
    ensures continues { ContinuesInEach (λ scope. spec.checked_arguments scope (calling_of call) (spec.taking (taken_of taken) (valued typed)) (listed params.entry) (expressions_of rest.now)) result }
    ensures smaller { IfOk result (λ step. step_size step ≤ sizes (expressions_of rest.now)) }
{
    go_on(alloc, call, take(taken, typed)?, params, rest)
}
