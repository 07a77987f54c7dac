//! What a declaration defines, after its declarator: a function's body, or what a variable begins with.
ghost use Rattle.std.specs.Prelude.{◌≡◌, None, false, IfOk};
ghost use Rattle.pw_tree.specs.Declarations.{variable, declaration_form_of, declaration_of};
ghost use Rattle.pw_tree.specs.Units.{typed_function_of as plain_function};
ghost use Rattle.pw_types.specs.Declarations as spec;
ghost use Rattle.pw_types.specs.Steps.CheckingDeclarations.{AreLocals, AreInitials, Defines, function_with, variable_with};
ghost use Rattle.pw_types.specs.Steps.Refusals.{Judges};
ghost use Rattle.pw_types.specs.Steps.UnitFaults.{faults_of_initialiser, faults_of_form};

use crate::declared::{is_extern, is_external, signature};
use crate::declared_names::Names;
use crate::fault::Refusal;
use crate::file_scope::FileScope;
use crate::initialiser::judge_elements;
use crate::names::Local;
use crate::scope::Scope;
use crate::statement::judge_body;
use crate::typed::Body;
use pw_base::NoMemory;
use pw_tree::{Decl, DeclKind, Init, InitItem, Sig, TFun, TVar, Ty};
use sqlite_items::Items;
use std::alloc::Global;
use std::marker::Model;

/// What all declarations of a unit have in common: the names of the functions and of the variables that the unit defines,
/// and the line of each of its tokens.
#[derive(Drop)]
pub(crate) struct Whole<'a> {
    pub functions: &'a Names,
    pub variables: &'a Names,
    pub lines: &'a [u32],
}

impl<'a> Model for Whole<'a> {
    ghost use Rattle.pw_types.specs.Declarations.{Whole as Common};

    ghost Value = { Common };

    ghost view = { λ w. record { functions = w.functions.now; variables = w.variables.now; lines = w.lines.now } };
}

/// What a declaration defines.
#[derive(Drop)]
pub(crate) enum Defined {
    Nothing,
    Function(TFun),
    Variable(TVar),
}

/// The function of this signature and body that a declaration defines.
fn function_of(alloc: Global, d: &Decl, sig: Sig, body: Body) -> Result<TFun, NoMemory>
    ensures { IfOk result (λ f. plain_function f ≡ function_with (declaration_of d.now) sig body) }
{
    Ok(TFun {
        name: d.name.copy(alloc)?,
        global: is_external(d.linkage),
        sig,
        line: d.line,
        locals: body.count,
        held: body.held,
        body: body.statements,
    })
}

/// The variable that a declaration defines; its size is none that is refused.
fn variable_of(
    alloc: Global,
    d: &Decl,
    ty: Ty,
    size: Option<u64>,
    init: Option<Items<Init>>,
) -> Result<TVar, NoMemory>
    requires { spec.has_bad_size (variable ty size None) ≡ false }
    ensures { IfOk result (λ v. v ≡ variable_with (declaration_of d.now) ty size init) }
{
    let count = match size {
        Some(size) => Some(size as u32),
        None => None,
    };
    Ok(TVar {
        name: d.name.copy(alloc)?,
        global: is_external(d.linkage),
        ty,
        count,
        init,
    })
}

/// The values of an initialiser, where there is one, or its first fault.
fn judge_initialiser(
    alloc: Global,
    scope: &Scope<'_>,
    used: &mut Vec<usize>,
    ty: Ty,
    size: Option<u64>,
    init: &Option<Items<InitItem>>,
) -> Result<Option<Items<Init>>, Refusal>
    ensures { Judges (faults_of_initialiser scope.now ty size init.now) (AreInitials scope.now init.now used.old.items used.new.items) result }
{
    match init {
        Some(items) => {
            let room = size.unwrap_or(1);
            Ok(Some(judge_elements(alloc, scope, used, ty, room, items.as_slice())?))
        }
        None => Ok(None),
    }
}

/// What a declaration defines, or the first fault of its body or initialiser, which see these locals. An array's size is
/// none that is refused.
pub(crate) fn judge_form(
    alloc: Global,
    whole: &Whole<'_>,
    files: &FileScope,
    used: &mut Vec<usize>,
    d: &Decl,
    locals: Vec<Local>,
) -> Result<Defined, Refusal>
    requires size { spec.has_bad_size (declaration_form_of d.now.kind) ≡ false }
    requires locals { AreLocals (declaration_form_of d.now.kind) locals.items }
    ensures { Judges (faults_of_form whole.now.lines (spec.file_scope whole.now files.now) (declaration_form_of d.now.kind)) (Defines whole.now files.now (declaration_of d.now) used.old.items used.new.items) result }
{
    let (functions, variables) = (whole.functions, whole.variables);
    let mut scope = Scope {
        files,
        functions,
        variables,
        locals,
    };
    match &d.kind {
        DeclKind::Proto(_, _) => Ok(Defined::Nothing),
        DeclKind::Fun(gives, params, body) => {
            let sig = signature(alloc, *gives, params.as_slice())?;
            let count = params.len() as u32;
            let body = body.as_slice();
            let body = judge_body(alloc, &mut scope, used, whole.lines, *gives, count, body)?;
            Ok(Defined::Function(function_of(alloc, d, sig, body)?))
        }
        DeclKind::Var(ty, size, init) => {
            let init = judge_initialiser(alloc, &scope, used, *ty, *size, init)?;
            if is_extern(d.linkage) {
                return Ok(Defined::Nothing);
            }
            Ok(Defined::Variable(variable_of(alloc, d, *ty, *size, init)?))
        }
    }
}
