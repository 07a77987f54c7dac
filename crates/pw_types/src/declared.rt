//! What a declaration declares.
ghost use Rattle.std.specs.Prelude.{◌≡◌, ◌≤◌, false, IfOk, option_copied};
ghost use Rattle.pw_base.specs.Limits as limits;
ghost use Rattle.pw_tree.specs.Declarations.{declaration_form_of, declaration_of};
ghost use Rattle.pw_types.specs.Declarations as spec;

use crate::names::{File, Kind};
use crate::same::is_kind_of;
use pw_base::{Limits, NoMemory};
use pw_tree::{Decl, DeclKind, Linkage, Param, Sig, Ty};
use sqlite_items::Items;
use std::alloc::Global;

/// Whether the linkage is external.
pub(crate) fn is_external(linkage: Linkage) -> bool
    ensures { result ≡ spec.is_external linkage }
{
    match linkage {
        Linkage::Plain | Linkage::Extern => true,
        Linkage::Static => false,
    }
}

/// Whether it is declared `extern`.
pub(crate) fn is_extern(linkage: Linkage) -> bool
    ensures { result ≡ spec.is_extern linkage }
{
    match linkage {
        Linkage::Extern => true,
        Linkage::Plain | Linkage::Static => false,
    }
}

/// Whether it defines its name: a function with a body, and a variable that is not `extern`.
pub(crate) fn defines(linkage: Linkage, kind: &DeclKind) -> bool
    ensures { result ≡ spec.defines linkage (declaration_form_of kind.now) }
{
    match kind {
        DeclKind::Proto(_, _) => false,
        DeclKind::Fun(_, _, _) => true,
        DeclKind::Var(_, _, _) => !is_extern(linkage),
    }
}

/// The signature of a function.
pub(crate) fn signature(alloc: Global, gives: Ty, params: &[Param]) -> Result<Sig, NoMemory>
    ensures { IfOk result (λ sig. sig ≡ spec.signature gives params.now) }
{
    let mut tys = Items::new(alloc);
    for p in params {
        tys.push(p.ty)?;
    }
    Ok(Sig {
        result: gives,
        params: tys,
    })
}

/// What is declared, where an array's size is none that is refused.
fn kind_of(alloc: Global, kind: &DeclKind) -> Result<Kind, NoMemory>
    requires { spec.has_bad_size (declaration_form_of kind.now) ≡ false }
    ensures { IfOk result (λ k. k ≡ spec.kind_of (declaration_form_of kind.now)) }
{
    match kind {
        DeclKind::Proto(gives, params) | DeclKind::Fun(gives, params, _) => {
            Ok(Kind::Function(signature(alloc, *gives, params.as_slice())?))
        }
        DeclKind::Var(ty, None, _) => Ok(Kind::Variable(*ty, None)),
        DeclKind::Var(ty, Some(size), _) => Ok(Kind::Variable(*ty, Some(*size as u32))),
    }
}

/// The name at file scope that a declaration gives.
pub(crate) fn file_of(alloc: Global, d: &Decl) -> Result<File, NoMemory>
    requires { spec.has_bad_size (declaration_form_of d.now.kind) ≡ false }
    ensures { IfOk result (λ f. f ≡ spec.first_of (declaration_of d.now)) }
{
    Ok(File {
        name: d.name.copy(alloc)?,
        external: is_external(d.linkage),
        kind: kind_of(alloc, &d.kind)?,
        defined: defines(d.linkage, &d.kind),
    })
}

/// Whether it defines a name that is defined.
pub(crate) fn is_redefined(d: &Decl, before: Option<&File>) -> bool
    ensures { result ≡ spec.is_redefined (declaration_of d.now) (option_copied before.entry) }
{
    match before {
        None => false,
        Some(f) => defines(d.linkage, &d.kind) && f.defined,
    }
}

/// Whether an earlier declaration of its name has another type or linkage.
pub(crate) fn conflicts(d: &Decl, before: Option<&File>) -> bool
    ensures { result ≡ spec.conflicts (declaration_of d.now) (option_copied before.entry) }
{
    match before {
        None => false,
        Some(f) => !(is_kind_of(&f.kind, &d.kind) && f.external == is_external(d.linkage)),
    }
}

/// Whether an array has no elements, or too many.
fn has_bad_size(kind: &DeclKind) -> bool
    ensures { result ≡ spec.has_bad_size (declaration_form_of kind.now) }
{
    match kind {
        DeclKind::Var(_, Some(size), _) => *size == 0 || *size > Limits::ARRAY_ELEMENTS,
        DeclKind::Var(_, None, _) | DeclKind::Proto(_, _) | DeclKind::Fun(_, _, _) => false,
    }
}

/// How many elements a variable has; a function has none.
fn elements_of_kind(kind: &DeclKind) -> u64
    ensures { result ≡ spec.elements_of_form (declaration_form_of kind.now) }
{
    match kind {
        DeclKind::Var(_, None, _) => 1,
        DeclKind::Var(_, Some(size), _) => *size,
        DeclKind::Proto(_, _) | DeclKind::Fun(_, _, _) => 0,
    }
}

/// How many elements are defined.
pub(crate) fn elements_of(d: &Decl) -> u64
    ensures { result ≡ spec.elements_of (declaration_of d.now) }
{
    if defines(d.linkage, &d.kind) {
        elements_of_kind(&d.kind)
    } else {
        0
    }
}

/// Whether an array has no elements or too many, or the unit has too many with those of this declaration.
pub(crate) fn is_too_large(elements: u64, d: &Decl) -> bool
    requires { elements ≤ limits.module_elements }
    ensures { result ≡ spec.is_too_large elements (declaration_of d.now) }
{
    let more = elements_of(d);
    has_bad_size(&d.kind) || (more > 0 && more > Limits::MODULE_ELEMENTS - elements)
}
