//! Nodes of typed expressions, and the rules that their places ask of them.
ghost use Rattle.std.specs.Prelude.{◌≡◌, IfOk};
ghost use Rattle.pw_tree.specs.TypedExpressions.{typed_expression_form_of};
ghost use Rattle.pw_types.specs.declared.fault.Refusal.TheVariants as refusals;
ghost use Rattle.pw_types.specs.Expressions as rules;
ghost use Rattle.pw_tree.specs.TypedExpressions as trees;
ghost use Rattle.pw_types.specs.Steps.CheckingExpressions as spec;
ghost use Rattle.pw_types.specs.Steps.ResumingExpressions.{valued, Gives};

use crate::expression_step::Head;
use crate::fault::Refusal;
use crate::refuse::broken;
use crate::role::Role;
use crate::rule::Rule;
use crate::typed::Typed;
use crate::types::{converts, is_pointer, is_void};
use pw_base::NoMemory;
use pw_tree::{TExpr, TKind, Ty};
use sqlite_items::Boxed;
use std::alloc::Global;

/// The type of a typed expression.
pub(crate) fn type_of(typed: &Typed) -> Ty
    ensures { result ≡ trees.type_of (valued typed.now).tree }
{
    typed.tree.get().ty
}

/// A node of a type.
pub(crate) fn node(
    alloc: Global,
    head: Head,
    ty: Ty,
    kind: TKind,
    held: u32,
) -> Result<Typed, NoMemory>
    ensures { IfOk result (λ typed. valued typed ≡ record { tree = typed_expression_form_of kind (spec.mark_under head ty); held = held }) }
{
    let line = head.line;
    let tree = Boxed::new(alloc, TExpr { ty, line, kind })?;
    Ok(Typed { tree, held })
}

/// A rule that is broken at the last token.
pub(crate) fn fault(head: Head, rule: Rule) -> Refusal
    ensures { result ≡ refusals.Fault (spec.fault_under head rule) }
{
    broken(rule, u64::from(head.last))
}

/// Whether a value is needed.
fn needs_value(role: Role) -> bool
    ensures { result ≡ rules.needs_value role }
{
    match role {
        Role::Statement | Role::Base => false,
        Role::Value | Role::Callee | Role::Argument(_) | Role::Written | Role::Assigned(_) => true,
    }
}

/// Whether it is a callee.
fn is_callee(role: Role) -> bool
    ensures { result ≡ rules.is_callee role }
{
    matches!(role, Role::Callee)
}

/// Whether it is the base of an index.
pub(crate) fn is_base(role: Role) -> bool
    ensures { result ≡ rules.is_base role }
{
    matches!(role, Role::Base)
}

/// Whether a type does not convert to another, where there is one.
fn does_not_become(want: Option<Ty>, ty: Ty) -> bool
    ensures { result ≡ spec.does_not_become want ty }
{
    match want {
        None => false,
        Some(to) => !converts(ty, to),
    }
}

/// Whether it is an argument of another type than is wanted.
fn is_other_argument(role: Role, ty: Ty) -> bool
    ensures { result ≡ spec.is_other_argument role ty }
{
    match role {
        Role::Argument(want) => does_not_become(want, ty),
        Role::Written => is_pointer(ty),
        Role::Statement | Role::Value | Role::Callee | Role::Base | Role::Assigned(_) => false,
    }
}

/// Whether it is assigned to another type than it converts to.
fn is_other_value(role: Role, ty: Ty) -> bool
    ensures { result ≡ spec.is_other_value role ty }
{
    match role {
        Role::Assigned(want) => does_not_become(want, ty),
        Role::Statement
        | Role::Value
        | Role::Callee
        | Role::Base
        | Role::Argument(_)
        | Role::Written => false,
    }
}

/// The first rule that an expression of a type breaks in its role; `other_count` says of a call that it has another number of
/// arguments.
fn first_rule(role: Role, other_count: bool, ty: Ty) -> Option<Rule>
    ensures { result ≡ spec.first_rule role other_count ty }
{
    if needs_value(role) && is_void(ty) {
        Some(Rule::NotValue)
    } else if other_count {
        Some(Rule::ArgCount)
    } else if is_other_argument(role, ty) {
        Some(Rule::ArgType)
    } else if is_callee(role) && !is_pointer(ty) {
        Some(Rule::NotCallable)
    } else if is_base(role) {
        Some(Rule::NotArray)
    } else if is_other_value(role, ty) {
        Some(Rule::AssignType)
    } else {
        None
    }
}

/// A typed expression in its role. Refusals: as in `first_rule`.
pub(crate) fn finish(head: Head, other_count: bool, typed: Typed) -> Result<Typed, Refusal>
    ensures { Gives (spec.finished_by head other_count (valued typed)) result }
{
    match first_rule(head.role, other_count, type_of(&typed)) {
        None => Ok(typed),
        Some(rule) => Err(fault(head, rule)),
    }
}
