//! The text of a function's type.
ghost use Rattle.std.specs.Prelude.{◌≡◌, IfOk};
ghost use Rattle.pw_tree.specs.Types.{IsResultType};
ghost use Rattle.pw_tree.specs.TypeTexts as texts;
ghost use Rattle.pw_tree.specs.WellTypedExpressions.{IsSignature};

use pw_base::{NoMemory, TypeText};
use pw_tree::{Sig, Ty};
use sqlite_items::Items;
use std::alloc::Global;

/// The letter of a type.
fn letter_of(ty: Ty) -> u8
    requires { IsResultType ty }
    ensures { result ≡ texts.letter_of ty }
{
    match ty {
        Ty::Void => b'v',
        Ty::Long => b'l',
        Ty::Ulong => b'u',
        Ty::Fn(k) => b'0' + k,
    }
}

/// The bytes of the text of a function's type.
#[tactic(auto, unfolding(pw_tree::specs::Types::AreValueTypes))]
fn bytes_of(alloc: Global, sig: &Sig) -> Result<Items<u8>, NoMemory>
    requires { IsSignature sig.now }
    ensures { IfOk result (λ text. text ≡ texts.text_of_function sig.now) }
{
    let mut text = Items::new(alloc);
    text.push(letter_of(sig.result))?;
    text.push(b'(')?;
    let mut rest = sig.params.as_slice();
    while let [ty, more @ ..] = rest {
        text.push(letter_of(*ty))?;
        rest = more;
    }
    text.push(b')')?;
    Ok(text)
}

/// The text of a function's type.
#[tactic(auto, using(crate::proofs::FunctionTexts::typed_text))]
pub(crate) fn text_of_function(alloc: Global, sig: &Sig) -> Result<TypeText, NoMemory>
    requires { IsSignature sig.now }
    ensures { IfOk result (λ text. text ≡ texts.text_of_function sig.now) }
{
    let bytes = bytes_of(alloc, sig)?;
    match TypeText::read(alloc, bytes.as_slice())? {
        Some(text) => Ok(text),
        None => unreachable!(),
    }
}
