//! Which types, and which kinds of names, are one.
ghost use Rattle.std.specs.Prelude.{◌≡◌, map};
ghost use Rattle.pw_tree.specs.Declarations.{declaration_form_of};
ghost use Rattle.pw_tree.specs.Types as types;
ghost use Rattle.pw_types.specs.declared.names.Kind.TheVariants as kinds;
ghost use Rattle.pw_types.specs.Declarations as spec;

use crate::names::Kind;
use crate::types::is_pointer_of;
use pw_tree::{DeclKind, Param, Ty};

/// Whether two types are one.
pub(crate) fn same_type(a: Ty, b: Ty) -> bool
    ensures { result ≡ types.same_type a b }
{
    match a {
        Ty::Void => matches!(b, Ty::Void),
        Ty::Long => matches!(b, Ty::Long),
        Ty::Ulong => matches!(b, Ty::Ulong),
        Ty::Fn(k) => is_pointer_of(k, b),
    }
}

/// Whether the parameters have these types.
#[tactic(auto, unfolding(crate::specs::Declarations::same_types))]
fn have_types(tys: &[Ty], params: &[Param]) -> bool
    ensures { result ≡ spec.same_types tys.now (map (λ p. p.ty) params.now) }
{
    let mut left = tys;
    let mut right = params;
    while let [ty, more_tys @ ..] = left {
        match right {
            [] => return false,
            [p, more_params @ ..] => {
                if !same_type(*ty, p.ty) {
                    return false;
                }
                left = more_tys;
                right = more_params;
            }
        }
    }
    right.is_empty()
}

/// Whether two sizes are one.
fn same_size(m: Option<u32>, n: Option<u64>) -> bool
    ensures { result ≡ spec.same_size m n }
{
    match m {
        None => n.is_none(),
        Some(m) => match n {
            None => false,
            Some(n) => u64::from(m) == n,
        },
    }
}

/// Whether a function of this result and these parameters is of this kind.
fn is_kind_of_function(kind: &Kind, gives: Ty, params: &[Param]) -> bool
    ensures { result ≡ spec.same_kind kind.now (kinds.Function (spec.signature gives params.now)) }
{
    match kind {
        Kind::Function(sig) => {
            same_type(sig.result, gives) && have_types(sig.params.as_slice(), params)
        }
        Kind::Variable(_, _) => false,
    }
}

/// Whether a variable of this type and size is of this kind.
fn is_kind_of_variable(kind: &Kind, ty: Ty, size: Option<u64>) -> bool
    ensures { result ≡ spec.same_kind kind.now (kinds.Variable ty size) }
{
    match kind {
        Kind::Function(_) => false,
        Kind::Variable(own, count) => same_type(*own, ty) && same_size(*count, size),
    }
}

/// Whether what is declared is of this kind.
pub(crate) fn is_kind_of(kind: &Kind, declared: &DeclKind) -> bool
    ensures { result ≡ spec.same_kind kind.now (spec.kind_of (declaration_form_of declared.now)) }
{
    match declared {
        DeclKind::Proto(gives, params) | DeclKind::Fun(gives, params, _) => {
            is_kind_of_function(kind, *gives, params.as_slice())
        }
        DeclKind::Var(ty, size, _) => is_kind_of_variable(kind, *ty, *size),
    }
}
