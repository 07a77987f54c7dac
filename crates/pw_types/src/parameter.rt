//! The parameters of a function: their faults, and the locals that they are.
ghost use Rattle.std.specs.Prelude.{◌≡◌, ◌<◌, ⊤, true, false, [], length, is_some, IfOk};
ghost use Rattle.pw_base.specs.Limits as limits;
ghost use Rattle.pw_tree.specs.Placed.{HaveNames};
ghost use Rattle.pw_types.specs.Declarations as spec;
ghost use Rattle.pw_types.specs.Steps.CheckingDeclarations.{faults_of_parameter};
ghost use Rattle.pw_types.specs.Steps.Refusals.{Judges};
ghost use Rattle.pw_types.specs.Steps.UnitFaults.{faults_of_parameters};

use crate::fault::Refusal;
use crate::names::Local;
use crate::refuse::{refuse_if, refuse_name_if};
use crate::reserved::is_reserved;
use crate::rule::Rule;
use crate::scope::has_local;
use pw_base::{Limits, Name, NoMemory};
use pw_tree::Param;
use std::alloc::Global;

/// The faults of a parameter's name in a definition, after those before it.
fn judge_defined_name(alloc: Global, before: &[Local], at: u32, name: &Name) -> Result<(), Refusal>
    ensures { Judges (spec.faults_of_parameter_name true (length before.now) before.now at (Some name.now)) (λ _. ⊤) result }
{
    let is_taken = has_local(before, name.bytes());
    refuse_name_if(alloc, is_taken, Rule::Redeclared, at, name)?;
    refuse_if(before.len() >= Limits::LOCALS, Rule::TooManyLocals, at)?;
    refuse_name_if(alloc, is_reserved(name.bytes()), Rule::Reserved, at, name)
}

/// The fault of a parameter's name in a prototype.
fn judge_declared_name(alloc: Global, at: u32, name: &Option<Name>) -> Result<(), Refusal>
    ensures { Judges (spec.faults_of_parameter_name false 0 [] at name.now) (λ _. ⊤) result }
{
    match name {
        Some(name) => refuse_name_if(alloc, is_reserved(name.bytes()), Rule::Reserved, at, name),
        None => Ok(()),
    }
}

/// The first fault of a prototype's parameters.
#[tactic(auto, using(crate::proofs::Parameters::by_number), unfolding(crate::specs::Steps::CheckingDeclarations::faults_by_number))]
pub(crate) fn judge_declared(alloc: Global, params: &[Param]) -> Result<(), Refusal>
    ensures { Judges (faults_of_parameters false [] params.now) (λ _. ⊤) result }
{
    let mut number = 0;
    let mut rest = params;
    while let [p, more @ ..] = rest {
        judge_declared_name(alloc, p.last, &p.name)?;
        refuse_if(
            number >= Limits::PARAMETERS,
            Rule::TooManyParameters,
            p.last,
        )?;
        number += 1;
        rest = more;
    }
    Ok(())
}

/// The local that a parameter is.
fn local(alloc: Global, number: u32, p: &Param) -> Result<Local, NoMemory>
    requires { is_some p.now.name ≡ true }
    ensures { IfOk result (λ local. local ≡ spec.local_of number p.now) }
{
    match &p.name {
        Some(name) => Ok(Local {
            name: name.copy(alloc)?,
            ty: p.ty,
            number,
        }),
        None => unreachable!(),
    }
}

/// The faults of a parameter of a definition, after those before it, and the local that it is.
fn judge_parameter(alloc: Global, before: &[Local], p: &Param) -> Result<Local, Refusal>
    requires { is_some p.now.name ≡ true }
    ensures { Judges (faults_of_parameter before.now p.now) (λ local. (local ≡ spec.local_of (length before.now) p.now) × (length before.now < limits.parameters)) result }
{
    match &p.name {
        Some(name) => judge_defined_name(alloc, before, p.last, name)?,
        None => unreachable!(),
    }
    refuse_if(
        before.len() >= Limits::PARAMETERS,
        Rule::TooManyParameters,
        p.last,
    )?;
    Ok(local(alloc, before.len() as u32, p)?)
}

/// The locals that the parameters of a definition are, or their first fault.
#[tactic(auto, unfolding(crate::specs::Steps::UnitFaults::faults_of_parameters, crate::specs::Declarations::locals_of, pw_tree::specs::Placed::HaveNames))]
pub(crate) fn judge_defined(alloc: Global, params: &[Param]) -> Result<Vec<Local>, Refusal>
    requires { HaveNames params.now }
    ensures { Judges (faults_of_parameters true [] params.now) (λ locals. locals.items ≡ spec.locals_of [] params.now) result }
{
    let mut locals = Vec::new(alloc);
    let mut rest = params;
    while let [p, more @ ..] = rest {
        let local = judge_parameter(alloc, &locals, p)?;
        if locals.push(local).is_err() {
            return Err(Refusal::NoMemory);
        }
        rest = more;
    }
    Ok(locals)
}
