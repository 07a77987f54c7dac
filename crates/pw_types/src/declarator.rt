//! A declaration up to its declarator's end: its name, its parameters and its size.
ghost use Rattle.std.specs.Prelude.{◌≡◌, ◌≤◌, ⊤, [], length, option_copied};
ghost use Rattle.pw_base.specs.Limits as limits;
ghost use Rattle.pw_tree.specs.Declarations.{declaration_form_of, declaration_of};
ghost use Rattle.pw_tree.specs.Placed.{HasTypes};
ghost use Rattle.pw_types.specs.Scopes.{file_named};
ghost use Rattle.pw_types.specs.Steps.CheckingDeclarations.{faults_of_name, faults_of_declarator, faults_in_parameters, faults_of_head, Fits, AreLocals};
ghost use Rattle.pw_types.specs.Steps.Refusals.{Judges};

use crate::declared::{conflicts, is_redefined, is_too_large};
use crate::fault::Refusal;
use crate::file_scope::FileScope;
use crate::names::{File, Local};
use crate::parameter::{judge_declared, judge_defined};
use crate::refuse::{refuse_if, refuse_name_if};
use crate::reserved::is_reserved;
use crate::rule::Rule;
use pw_tree::{Decl, DeclKind};
use std::alloc::Global;

/// The earlier declaration of a name.
fn earlier<'a>(files: &'a FileScope, name: &[u8]) -> Option<&'a File>
    ensures { option_copied result ≡ file_named name.now files.now }
{
    match files.find(name) {
        Some((_, file)) => Some(file),
        None => None,
    }
}

/// The first fault of a declaration's name.
fn judge_name(alloc: Global, before: Option<&File>, d: &Decl) -> Result<(), Refusal>
    ensures { Judges (faults_of_name (option_copied before.entry) (declaration_of d.now)) (λ _. ⊤) result }
{
    let is_redefined = is_redefined(d, before);
    refuse_name_if(alloc, is_redefined, Rule::Redeclared, d.name_at, &d.name)?;
    let is_reserved = is_reserved(d.name.bytes());
    refuse_name_if(alloc, is_reserved, Rule::Reserved, d.name_at, &d.name)
}

/// The locals that a declaration's parameters are, or their first fault.
#[tactic(auto, using(crate::proofs::Parameters::few_parameters), unfolding(crate::specs::Steps::UnitFaults::faults_of_parameters))]
fn judge_parameters(alloc: Global, kind: &DeclKind) -> Result<Vec<Local>, Refusal>
    requires { HasTypes (declaration_form_of kind.now) }
    ensures { Judges (faults_in_parameters (declaration_form_of kind.now)) (λ locals. AreLocals (declaration_form_of kind.now) locals.items) result }
{
    match kind {
        DeclKind::Proto(_, params) => {
            judge_declared(alloc, params.as_slice())?;
            Ok(Vec::new(alloc))
        }
        DeclKind::Fun(_, params, _) => judge_defined(alloc, params.as_slice()),
        DeclKind::Var(_, _, _) => Ok(Vec::new(alloc)),
    }
}

/// The first fault of a declaration's type, linkage and size.
fn judge_declarator(
    alloc: Global,
    before: Option<&File>,
    elements: u64,
    d: &Decl,
) -> Result<(), Refusal>
    requires { elements ≤ limits.module_elements }
    ensures { Judges (faults_of_declarator (option_copied before.entry) elements (declaration_of d.now)) (λ _. Fits elements (declaration_of d.now)) result }
{
    refuse_name_if(
        alloc,
        conflicts(d, before),
        Rule::Conflict,
        d.declarator,
        &d.name,
    )?;
    refuse_if(is_too_large(elements, d), Rule::ArraySize, d.declarator)
}

/// The first fault of a declaration up to its declarator's end, or the locals that its parameters are.
pub(crate) fn judge_head(
    alloc: Global,
    files: &FileScope,
    elements: u64,
    d: &Decl,
) -> Result<Vec<Local>, Refusal>
    requires types { HasTypes (declaration_form_of d.now.kind) }
    requires room { elements ≤ limits.module_elements }
    ensures { Judges (faults_of_head files.now elements (declaration_of d.now)) (λ locals. AreLocals (declaration_form_of d.now.kind) locals.items × Fits elements (declaration_of d.now)) result }
{
    let before = earlier(files, d.name.bytes());
    judge_name(alloc, before, d)?;
    let locals = judge_parameters(alloc, &d.kind)?;
    judge_declarator(alloc, before, elements, d)?;
    Ok(locals)
}
