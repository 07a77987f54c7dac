//! Sorts of types, which of them convert, and the types of operators (C17, 6.3 and 6.5).
ghost use Rattle.std.specs.Prelude.{◌≡◌};
ghost use Rattle.std.specs.List.{list_all};
ghost use Rattle.pw_tree.specs.declared.ty.Ty.TheVariants.{Long};
ghost use Rattle.pw_tree.specs.Types as spec;
ghost use Rattle.pw_types.specs.Steps.Operations.{Operates};

use pw_base::Limits;
use pw_tree::{Bin, Sig, Ty, Un};

/// Whether it is long or unsigned long.
pub(crate) fn is_number(ty: Ty) -> bool
    ensures { result ≡ spec.is_number ty }
{
    match ty {
        Ty::Long | Ty::Ulong => true,
        Ty::Void | Ty::Fn(_) => false,
    }
}

/// Whether it is unsigned long.
fn is_unsigned(ty: Ty) -> bool
    ensures { result ≡ spec.is_unsigned ty }
{
    match ty {
        Ty::Ulong => true,
        Ty::Void | Ty::Long | Ty::Fn(_) => false,
    }
}

/// Whether it is void.
pub(crate) fn is_void(ty: Ty) -> bool
    ensures { result ≡ spec.is_void ty }
{
    match ty {
        Ty::Void => true,
        Ty::Long | Ty::Ulong | Ty::Fn(_) => false,
    }
}

/// Whether it is a pointer to a function.
pub(crate) fn is_pointer(ty: Ty) -> bool
    ensures { result ≡ spec.is_pointer ty }
{
    match ty {
        Ty::Fn(_) => true,
        Ty::Void | Ty::Long | Ty::Ulong => false,
    }
}

/// Whether it is this type of pointers.
pub(crate) fn is_pointer_of(k: u8, ty: Ty) -> bool
    ensures { result ≡ spec.same_pointer_as k ty }
{
    match ty {
        Ty::Fn(j) => k == j,
        Ty::Void | Ty::Long | Ty::Ulong => false,
    }
}

/// Whether they are two equal types of pointers.
fn same_pointers(a: Ty, b: Ty) -> bool
    ensures { result ≡ spec.same_pointers a b }
{
    match a {
        Ty::Fn(k) => is_pointer_of(k, b),
        Ty::Void | Ty::Long | Ty::Ulong => false,
    }
}

/// Whether a value of a type converts to another (C17, 6.5.16.1): numbers to numbers, a pointer to an equal type.
pub(crate) fn converts(from: Ty, to: Ty) -> bool
    ensures { result ≡ spec.converts from to }
{
    (is_number(from) && is_number(to)) || same_pointers(from, to)
}

/// What two numbers become (C17, 6.3.1.8): unsigned long where one of them is.
fn common(a: Ty, b: Ty) -> Ty
    ensures { result ≡ spec.common a b }
{
    if is_unsigned(a) || is_unsigned(b) {
        Ty::Ulong
    } else {
        Ty::Long
    }
}

/// The type of a unary operator's result (C17, 6.5.3.3), where it takes such an operand.
pub(crate) fn unary_type(op: Un, ty: Ty) -> Option<Ty>
    ensures { result ≡ spec.unary_type op ty }
{
    match op {
        Un::Bang => Some(Ty::Long),
        Un::Neg | Un::Plus | Un::Not => { if is_number(ty) { Some(ty) } else { None } }
    }
}

/// A binary operator's type, and whether it is the unsigned one.
#[derive(Clone, Copy)]
pub(crate) struct Operation {
    pub ty: Ty,
    pub unsigned: bool,
}

/// The operation of an operator that takes two numbers and gives the type that they become.
fn arithmetic(l: Ty, r: Ty) -> Option<Operation>
    ensures { Operates (spec.on_numbers spec.arithmetic l r) result }
{
    if is_number(l) && is_number(r) {
        Some(Operation {
            ty: common(l, r),
            unsigned: is_unsigned(l) || is_unsigned(r),
        })
    } else {
        None
    }
}

/// The operation of a shift.
fn shift(l: Ty, r: Ty) -> Option<Operation>
    ensures { Operates (spec.on_numbers spec.shift l r) result }
{
    if is_number(l) && is_number(r) {
        Some(Operation {
            ty: l,
            unsigned: is_unsigned(l),
        })
    } else {
        None
    }
}

/// The operation of a comparison of numbers.
fn comparison(l: Ty, r: Ty) -> Option<Operation>
    ensures { Operates (spec.on_numbers spec.comparison l r) result }
{
    if is_number(l) && is_number(r) {
        Some(Operation {
            ty: Ty::Long,
            unsigned: is_unsigned(l) || is_unsigned(r),
        })
    } else {
        None
    }
}

/// A long that no sign bears on.
const TRUTH: Operation = Operation {
    ty: Ty::Long,
    unsigned: false,
};

/// The operation of `==` and `!=`, which also take two equal types of pointers.
fn equality(l: Ty, r: Ty) -> Option<Operation>
    ensures { Operates (spec.equality l r) result }
{
    if same_pointers(l, r) {
        Some(TRUTH)
    } else {
        comparison(l, r)
    }
}

/// The operation of a binary operator (C17, 6.5.5 to 6.5.14), where it takes such operands.
pub(crate) fn binary_type(op: Bin, l: Ty, r: Ty) -> Option<Operation>
    ensures { Operates (spec.binary_type op l r) result }
{
    match op {
        Bin::AndAnd | Bin::OrOr => Some(TRUTH),
        Bin::Eq | Bin::Ne => equality(l, r),
        Bin::Lt | Bin::Gt | Bin::Le | Bin::Ge => comparison(l, r),
        Bin::Shl | Bin::Shr => shift(l, r),
        Bin::Mul | Bin::Div | Bin::Rem | Bin::Add | Bin::Sub | Bin::And | Bin::Xor | Bin::Or => {
            arithmetic(l, r)
        }
    }
}

/// The type of `c ? a : b` (C17, 6.5.15), where it takes such values.
pub(crate) fn choice_type(a: Ty, b: Ty) -> Option<Ty>
    ensures { result ≡ spec.choice_type a b }
{
    if same_pointers(a, b) {
        Some(a)
    } else if is_number(a) && is_number(b) {
        Some(common(a, b))
    } else {
        None
    }
}

/// Whether it is long.
fn is_long(ty: Ty) -> bool
    ensures { result ≡ spec.same_type ty Long }
{
    match ty {
        Ty::Long => true,
        Ty::Void | Ty::Ulong | Ty::Fn(_) => false,
    }
}

/// Whether all of them are long.
fn are_long(tys: &[Ty]) -> bool
    ensures { result ≡ list_all (λ ty. spec.same_type ty Long) tys.now }
{
    tys.iter().all(|ty| is_long(*ty))
}

/// The type of pointers to functions of a signature, where it has one.
pub(crate) fn pointer_to(sig: &Sig) -> Option<Ty>
    ensures { result ≡ spec.pointer_to sig.now }
{
    let params = sig.params.as_slice();
    if is_long(sig.result) && are_long(params) && params.len() <= Limits::PARAMETERS {
        Some(Ty::Fn(params.len() as u8))
    } else {
        None
    }
}
