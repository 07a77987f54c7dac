//! The texts of types.
ghost use Rattle.std.specs.Prelude.{◌≡◌, decimal, IfOk};
ghost use Rattle.pw_tree.specs.Types.{IsResultType};
ghost use Rattle.pw_tree.specs.TypeTexts as texts;
ghost use Rattle.pw_types.specs.declared.names.Kind.TheVariants as kinds;
ghost use Rattle.pw_types.specs.Steps.Texts.{HasText};
ghost use Rattle.pw_types.specs.Units.{text_of_kind};

use crate::names::Kind;
use pw_base::{NoMemory, TypeText};
use pw_tree::{Sig, Ty};
use sqlite_items::Items;
use std::alloc::Global;

/// The letter of a type.
fn letter_of(ty: Ty) -> u8
    requires { IsResultType ty }
    ensures { result ≡ texts.letter_of ty }
{
    match ty {
        Ty::Void => b'v',
        Ty::Long => b'l',
        Ty::Ulong => b'u',
        Ty::Fn(k) => b'0' + k,
    }
}

/// The text of a function's type.
#[tactic(auto, unfolding(pw_tree::specs::Types::AreValueTypes))]
fn text_of_function(alloc: Global, sig: &Sig) -> Result<Items<u8>, NoMemory>
    requires { HasText (kinds.Function sig.now) }
    ensures { IfOk result (λ text. text ≡ texts.text_of_function sig.now) }
{
    let mut text = Items::new(alloc);
    text.push(letter_of(sig.result))?;
    text.push(b'(')?;
    let mut rest = sig.params.as_slice();
    while let [ty, more @ ..] = rest {
        text.push(letter_of(*ty))?;
        rest = more;
    }
    text.push(b')')?;
    Ok(text)
}

/// The text of an array's size.
fn text_of_size(alloc: Global, size: u32) -> Result<Items<u8>, NoMemory>
    ensures { IfOk result (λ text. text ≡ decimal size) }
{
    let digits = format!(in alloc; "{size}")?;
    Ok(Items::from_slice(alloc, digits.as_bytes())?)
}

/// The text of a variable's type.
fn text_of_variable(alloc: Global, ty: Ty, size: Option<u32>) -> Result<Items<u8>, NoMemory>
    requires { HasText (kinds.Variable ty size) }
    ensures { IfOk result (λ text. text ≡ texts.text_of_variable ty size) }
{
    let mut text = Items::new(alloc);
    text.push(letter_of(ty))?;
    if let Some(size) = size {
        text.push(b'[')?;
        text.append(text_of_size(alloc, size)?)?;
        text.push(b']')?;
    }
    Ok(text)
}

/// The bytes of the text of a kind's type.
fn text_of(alloc: Global, kind: &Kind) -> Result<Items<u8>, NoMemory>
    requires { HasText kind.now }
    ensures { IfOk result (λ text. text ≡ text_of_kind kind.now) }
{
    match kind {
        Kind::Function(sig) => text_of_function(alloc, sig),
        Kind::Variable(ty, size) => text_of_variable(alloc, *ty, *size),
    }
}

/// The text of the type of a name at file scope.
#[tactic(auto, using(crate::proofs::TypeTexts::typed_text))]
pub(crate) fn type_text(alloc: Global, kind: &Kind) -> Result<TypeText, NoMemory>
    requires { HasText kind.now }
    ensures { IfOk result (λ text. text ≡ text_of_kind kind.now) }
{
    let bytes = text_of(alloc, kind)?;
    match TypeText::read(alloc, bytes.as_slice())? {
        Some(text) => Ok(text),
        None => unreachable!(),
    }
}
