//! Names in expressions.
ghost use Rattle.std.specs.Prelude.{◌≡◌, [], ◌∷◌, ◌++◌, OnOk};
ghost use Rattle.pw_types.specs.declared.rule.Rule.TheVariants.{Unknown};
ghost use Rattle.pw_types.specs.Scopes.{name_meaning};
ghost use Rattle.pw_tree.specs.Types as types;
ghost use Rattle.pw_types.specs.Steps.Judging.{refuse};
ghost use Rattle.pw_types.specs.Steps.CheckingExpressions as spec;
ghost use Rattle.pw_types.specs.Steps.ResumingExpressions.{Gives, GivesWith};

use crate::expression_form::leaf;
use crate::expression_node::{fault, is_base};
use crate::expression_step::Head;
use crate::fault::Refusal;
use crate::meaning::Meaning;
use crate::names::{File, Kind};
use crate::refuse::broken_by;
use crate::role::Role;
use crate::rule::Rule;
use crate::scope::Scope;
use crate::typed::Typed;
use crate::types::pointer_to;
use pw_base::{Name, NoMemory};
use pw_tree::{Sig, TKind, Ty};
use std::alloc::Global;

/// Notes the use of a name at file scope, by its number.
pub(crate) fn note(used: &mut Vec<usize>, number: usize) -> Result<(), NoMemory>
    ensures { OnOk result (used.new.items ≡ used.old.items ++ number ∷ []) }
{
    match used.push(number) {
        Ok(()) => Ok(()),
        Err(_) => Err(NoMemory),
    }
}

/// The refusal of a name that has no visible declaration.
fn unknown(alloc: Global, head: Head, name: &Name) -> Result<Typed, Refusal>
    ensures { Gives (refuse (record { rule = Unknown; at = head.last; name = Some name.now })) result }
{
    Err(broken_by(alloc, Rule::Unknown, u64::from(head.last), name))
}

/// The rule that the name of a function breaks that no pointer type fits.
fn function_rule(role: Role) -> Rule
    ensures { result ≡ spec.function_rule role }
{
    if is_base(role) {
        Rule::NotArray
    } else {
        Rule::NotValue
    }
}

/// The first rule that an array's name breaks where it is no base.
fn array_rule(role: Role) -> Rule
    ensures { result ≡ spec.array_rule role }
{
    match role {
        Role::Callee => Rule::NotCallable,
        Role::Argument(Some(_)) => Rule::ArgType,
        Role::Argument(None) => Rule::NeedsIndex,
        Role::Base => Rule::NotArray,
        Role::Statement | Role::Value | Role::Written | Role::Assigned(_) => Rule::NeedsIndex,
    }
}

/// A function's name as a value.
#[tactic(auto, using(crate::proofs::Trees::names))]
fn function_value(
    alloc: Global,
    scope: &Scope<'_>,
    head: Head,
    file: &File,
    sig: &Sig,
) -> Result<Typed, Refusal>
    ensures { Gives (spec.function_value scope.now head file.now (types.pointer_to sig.now)) result }
{
    match pointer_to(sig) {
        None => Err(fault(head, function_rule(head.role))),
        Some(ty) => leaf(
            alloc,
            head,
            ty,
            TKind::Fun(scope.function_reference(alloc, file)?),
        ),
    }
}

/// A variable's name as a value.
#[tactic(auto, using(crate::proofs::Trees::names))]
fn variable_value(
    alloc: Global,
    scope: &Scope<'_>,
    head: Head,
    file: &File,
    ty: Ty,
    size: Option<u32>,
) -> Result<Typed, Refusal>
    ensures { Gives (spec.variable_value scope.now head file.now ty size) result }
{
    match size {
        None => leaf(
            alloc,
            head,
            ty,
            TKind::Var(scope.variable_reference(alloc, file)?),
        ),
        Some(_) => Err(fault(head, array_rule(head.role))),
    }
}

/// A name at file scope as a value.
fn file_value(alloc: Global, scope: &Scope<'_>, head: Head, file: &File) -> Result<Typed, Refusal>
    ensures { Gives (spec.file_value scope.now head file.now file.now.kind) result }
{
    match &file.kind {
        Kind::Function(sig) => function_value(alloc, scope, head, file, sig),
        Kind::Variable(ty, size) => variable_value(alloc, scope, head, file, *ty, *size),
    }
}

/// A local's name as a value.
#[tactic(auto, using(crate::proofs::Trees::names))]
fn local_value(alloc: Global, head: Head, ty: Ty, number: u32) -> Result<Typed, Refusal>
    ensures { Gives (spec.local_value head ty number) result }
{
    leaf(alloc, head, ty, TKind::Local(number))
}

/// A name as a value; one at file scope is noted. Refusals: `Unknown`, `NotValue` and `NotArray` of a function, those of an
/// array's name, and as in `finish`.
pub(crate) fn named_value(
    alloc: Global,
    scope: &Scope<'_>,
    used: &mut Vec<usize>,
    head: Head,
    name: &Name,
) -> Result<Typed, Refusal>
    ensures { GivesWith (spec.named_value scope.now head name.now (name_meaning scope.now name.now)) used.old.items used.new.items result }
{
    match scope.meaning(name.bytes()) {
        Meaning::Missing => unknown(alloc, head, name),
        Meaning::Local(local) => local_value(alloc, head, local.ty, local.number),
        Meaning::File(number, file) => {
            note(used, number)?;
            file_value(alloc, scope, head, file)
        }
    }
}
