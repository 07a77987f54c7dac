//! A whole unit: its first fault, or its typed unit.
ghost use Rattle.std.specs.Prelude.{◌≡◌, ⊤, [], map, find, option_copied, IfOk};
ghost use Rattle.pw_tree.specs.Declarations.{declaration_of, untyped_unit_of};
ghost use Rattle.pw_tree.specs.Placed.{HaveTypes, IsParsed};
ghost use Rattle.pw_tree.specs.Units.{unit_of};
ghost use Rattle.pw_types.specs.Units as spec;
ghost use Rattle.pw_types.specs.Steps.CheckingUnits.{IsAll, IsDeclared, faults_at_end, names_in, unit_by_number};
ghost use Rattle.pw_types.specs.Steps.Refusals.{Judges};
ghost use Rattle.pw_types.specs.Steps.UnitFaults.{faults_of_declarations, faults_in_order};

use crate::declared::is_extern;
use crate::declared_names::Names;
use crate::defined::Whole;
use crate::external::external_names;
use crate::fault::Refusal;
use crate::names::{File, Kind};
use crate::progress::Progress;
use crate::refuse::refuse_name_if;
use crate::rule::Rule;
use pw_base::NoMemory;
use pw_tree::{Decl, DeclKind, Ext, TUnit, Unit};
use sqlite_items::Items;
use std::alloc::Global;

/// The names of the functions that these declarations define.
#[tactic(auto, using(crate::proofs::UnitNames::joined_once), unfolding(crate::proofs::UnitNames::joined_all))]
fn functions_of(alloc: Global, decls: &[Decl]) -> Result<Names, NoMemory>
    ensures { IfOk result (λ names. names ≡ spec.functions_of (map declaration_of decls.now)) }
{
    let mut names = Names::new(alloc);
    let mut rest = decls;
    while let [d, more @ ..] = rest {
        match &d.kind {
            DeclKind::Fun(_, _, _) => names.join(alloc, &d.name)?,
            DeclKind::Proto(_, _) | DeclKind::Var(_, _, _) => {}
        }
        rest = more;
    }
    Ok(names)
}

/// The names of the variables that these declarations define.
#[tactic(auto, using(crate::proofs::UnitNames::joined_once), unfolding(crate::proofs::UnitNames::joined_all))]
fn variables_of(alloc: Global, decls: &[Decl]) -> Result<Names, NoMemory>
    ensures { IfOk result (λ names. names ≡ spec.variables_of (map declaration_of decls.now)) }
{
    let mut names = Names::new(alloc);
    let mut rest = decls;
    while let [d, more @ ..] = rest {
        match &d.kind {
            DeclKind::Var(_, _, _) => {
                if !is_extern(d.linkage) {
                    names.join(alloc, &d.name)?;
                }
            }
            DeclKind::Proto(_, _) | DeclKind::Fun(_, _, _) => {}
        }
        rest = more;
    }
    Ok(names)
}

/// What the declarations of a unit give, or their first fault.
#[tactic(auto, unfolding(crate::specs::Steps::UnitFaults::faults_of_declarations, crate::specs::Units::files_after, crate::specs::Units::typed_functions, crate::specs::Units::typed_variables, crate::specs::Steps::Uses::uses_of_declarations, pw_tree::specs::Placed::HaveTypes))]
fn judge_declarations(alloc: Global, whole: &Whole<'_>, decls: &[Decl]) -> Result<Progress, Refusal>
    requires { HaveTypes (map declaration_of decls.now) }
    ensures { Judges (faults_of_declarations whole.now [] 0 (map declaration_of decls.now)) (IsAll whole.now (map declaration_of decls.now)) result }
{
    let mut progress = Progress::new(alloc);
    let mut rest = decls;
    while let [d, more @ ..] = rest {
        progress.declare(alloc, whole, d)?;
        rest = more;
    }
    Ok(progress)
}

/// Whether it is a static function that is declared and not defined.
fn lacks_definition(f: &File) -> bool
    ensures { result ≡ spec.lacks_definition f.now }
{
    match f.kind {
        Kind::Function(_) => !f.external && !f.defined,
        Kind::Variable(_, _) => false,
    }
}

/// The first static function that is declared and not defined.
fn lacking(files: &[File]) -> Option<&File>
    ensures { option_copied result ≡ find spec.lacks_definition files.now }
{
    files.iter().find(|f| lacks_definition(f))
}

/// The fault of a unit whose last token this is: a static function that is declared and not defined.
fn judge_end(alloc: Global, files: &[File], last: u32) -> Result<(), Refusal>
    ensures { Judges (spec.faults_of_lacking last (find spec.lacks_definition files.now)) (λ _. ⊤) result }
{
    match lacking(files) {
        Some(f) => refuse_name_if(alloc, true, Rule::Unknown, last, &f.name),
        None => Ok(()),
    }
}

/// The external names of a unit whose declarations gave this, or the fault at its last token.
#[tactic(auto, using(crate::proofs::UnitTexts::texts_after), unfolding(crate::specs::Steps::Texts::HaveTexts))]
fn judge_names(alloc: Global, unit: &Unit, progress: &Progress) -> Result<Items<Ext>, Refusal>
    requires parsed { IsParsed (untyped_unit_of unit.now) }
    requires declared { IsDeclared (untyped_unit_of unit.now) progress.now }
    ensures { Judges (faults_at_end (untyped_unit_of unit.now)) (λ names. names ≡ names_in (untyped_unit_of unit.now)) result }
{
    let files = progress.files.as_slice();
    judge_end(alloc, files, unit.lines.len().saturating_sub(1) as u32)?;
    Ok(external_names(alloc, &progress.used, files)?)
}

/// The typed unit whose declarations gave this, or the fault at its last token.
fn judge_rest(alloc: Global, unit: &Unit, progress: Progress) -> Result<TUnit, Refusal>
    requires parsed { IsParsed (untyped_unit_of unit.now) }
    requires declared { IsDeclared (untyped_unit_of unit.now) progress }
    ensures { Judges (faults_in_order (untyped_unit_of unit.now)) (λ typed. unit_of typed ≡ unit_by_number (untyped_unit_of unit.now)) result }
{
    let names = judge_names(alloc, unit, &progress)?;
    Ok(TUnit {
        funs: progress.functions,
        vars: progress.variables,
        names,
    })
}

/// The typed unit, or the first fault.
pub(crate) fn judge_unit(alloc: Global, unit: &Unit) -> Result<TUnit, Refusal>
    requires { IsParsed (untyped_unit_of unit.now) }
    ensures { Judges (faults_in_order (untyped_unit_of unit.now)) (λ typed. unit_of typed ≡ unit_by_number (untyped_unit_of unit.now)) result }
{
    let decls = unit.decls.as_slice();
    let functions = functions_of(alloc, decls)?;
    let variables = variables_of(alloc, decls)?;
    let whole = Whole {
        functions: &functions,
        variables: &variables,
        lines: unit.lines.as_slice(),
    };
    let progress = judge_declarations(alloc, &whole, decls)?;
    judge_rest(alloc, unit, progress)
}
