//! Expressions that are names of functions and of arrays.
ghost use Rattle.std.specs.Prelude.{◌≡◌, option_copied};
ghost use Rattle.pw_tree.specs.Expressions.{expression_of};
ghost use Rattle.pw_types.specs.Typed as typed;
ghost use Rattle.pw_types.specs.Steps.Uses.{uses, uses_of_name};
ghost use Rattle.pw_types.specs.Steps.Words.{word_in, IsNamedFunction, IsNamedArray};

use crate::meaning::Meaning;
use crate::names::{File, Kind};
use crate::scope::Scope;
use pw_base::Name;
use pw_tree::{Expr, ExprKind, Sig, Ty};

/// A function that a name designates: its number at file scope, its declaration and its signature.
#[derive(Clone, Copy)]
pub(crate) struct NamedFunction<'a> {
    pub number: usize,
    pub file: &'a File,
    pub sig: &'a Sig,
}

/// An array that a name designates: its number at file scope, its declaration, its elements' type and its size.
#[derive(Clone, Copy)]
pub(crate) struct NamedArray<'a> {
    pub number: usize,
    pub file: &'a File,
    pub ty: Ty,
    pub size: u32,
}

/// The name that an expression is, where it is one.
#[tactic(auto, using(crate::proofs::Phrases::phrase_forms))]
fn word(e: &Expr) -> Option<&Name>
    ensures { option_copied result ≡ word_in (expression_of e.now) }
{
    match &e.kind {
        ExprKind::Word(name) => Some(name),
        ExprKind::Num(_, _)
        | ExprKind::Unary(_, _)
        | ExprKind::Binary(_, _, _)
        | ExprKind::Cond(_, _, _)
        | ExprKind::Call(_, _)
        | ExprKind::Index(_, _)
        | ExprKind::Input
        | ExprKind::Output(_) => None,
    }
}

/// The function that a name designates, where it is one's.
fn function_named<'a>(scope: &'a Scope<'_>, name: &Name) -> Option<NamedFunction<'a>>
    ensures { IsNamedFunction scope.now (typed.function_named scope.now name.now) (uses_of_name scope.now name.now) result }
{
    match scope.meaning(name.bytes()) {
        Meaning::Missing | Meaning::Local(_) => None,
        Meaning::File(number, file) => match &file.kind {
            Kind::Function(sig) => Some(NamedFunction { number, file, sig }),
            Kind::Variable(_, _) => None,
        },
    }
}

/// The function that an expression designates by its name, where it is one's.
pub(crate) fn function<'a>(scope: &'a Scope<'_>, e: &Expr) -> Option<NamedFunction<'a>>
    ensures { IsNamedFunction scope.now (typed.function_of scope.now (expression_of e.now)) (uses scope.now (expression_of e.now)) result }
{
    match word(e) {
        None => None,
        Some(name) => function_named(scope, name),
    }
}

/// The array that a name designates, where it is one's.
fn array_named<'a>(scope: &'a Scope<'_>, name: &Name) -> Option<NamedArray<'a>>
    ensures { IsNamedArray scope.now (typed.array_named scope.now name.now) (uses_of_name scope.now name.now) result }
{
    match scope.meaning(name.bytes()) {
        Meaning::Missing | Meaning::Local(_) => None,
        Meaning::File(number, file) => match &file.kind {
            Kind::Function(_) | Kind::Variable(_, None) => None,
            Kind::Variable(ty, Some(size)) => Some(NamedArray {
                number,
                file,
                ty: *ty,
                size: *size,
            }),
        },
    }
}

/// The array that an expression designates by its name, where it is one's.
pub(crate) fn array<'a>(scope: &'a Scope<'_>, e: &Expr) -> Option<NamedArray<'a>>
    ensures { IsNamedArray scope.now (typed.array_of scope.now (expression_of e.now)) (uses scope.now (expression_of e.now)) result }
{
    match word(e) {
        None => None,
        Some(name) => array_named(scope, name),
    }
}
