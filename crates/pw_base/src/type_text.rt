//! The type string, by which two declarations of one name are compared.
ghost use Rattle.std.specs.Prelude.{◌≡◌, ◌≤◌, ◌↔◌, ◌&&◌, true, nat_lt, [], ◌∷◌, ◌++◌, length, decimal, IfOk};
ghost use Rattle.std.specs.List.{list_all};
ghost use Rattle.pw_base.specs.Name.{is_from};
ghost use Rattle.pw_base.specs.TypeText.{ReadsTypeText, IsTypeText, IsTypeTextOrEmpty, IsSize};
ghost use Rattle.pw_base.specs.TypeText as definition;

use crate::limits::Limits;
use crate::no_memory::NoMemory;
use std::alloc::Global;
use std::marker::Model;

/// The digits of the greatest size of an array.
const SIZE_DIGITS: usize = 5;

/// The type string of a function or a variable, or none. Contracts see it as the list of its bytes.
#[derive(Debug, Drop)]
pub struct TypeText {
    bytes: Vec<u8>,
}

impl Model for TypeText {
    ghost use Rattle.std.specs.Prelude.{List, ℕ};
    ghost use Rattle.pw_base.specs.TypeText.{IsTypeTextOrEmpty};

    ghost Value = { List ℕ };

    ghost view = { λ text. text.bytes.items };

    ghost invariant = { λ text. IsTypeTextOrEmpty text.bytes.items };
}

/// Whether this is the letter of a type that has values.
fn is_value_letter(byte: u8) -> bool
    ensures { result ≡ definition.is_value_letter byte }
{
    byte == b'l' || byte == b'u' || (b'0' <= byte && byte <= b'6')
}

/// Whether this is the letter of a type.
fn is_type_letter(byte: u8) -> bool
    ensures { result ≡ definition.is_type_letter byte }
{
    byte == b'v' || is_value_letter(byte)
}

/// Whether these are letters of types that have values.
fn are_value_letters(letters: &[u8]) -> bool
    ensures { result ≡ list_all definition.is_value_letter letters.now }
{
    letters.iter().all(|letter| is_value_letter(*letter))
}

/// Whether these are the letters of a function's parameters.
fn are_params(letters: &[u8]) -> bool
    ensures { (result ≡ true) ↔ ((list_all definition.is_value_letter letters.now ≡ true) × (length letters.now ≤ 6)) }
{
    letters.len() <= Limits::PARAMETERS && are_value_letters(letters)
}

/// Whether these are digits.
fn are_digits(bytes: &[u8]) -> bool
    ensures { result ≡ list_all (is_from 48 57) bytes.now }
{
    bytes.iter().all(|byte| byte.is_ascii_digit())
}

/// Whether these are the digits of a number from 1 to 99999.
fn is_numeral(first: u8, more: &[u8]) -> bool
    ensures { result ≡ (is_from 49 57 first && nat_lt (length more.now) 5 && list_all (is_from 48 57) more.now) }
{
    b'1' <= first && first <= b'9' && more.len() < SIZE_DIGITS && are_digits(more)
}

/// The number from 1 to 99999 of these digits.
fn number(first: u8, more: &[u8]) -> u64
    requires { (is_from 49 57 first && nat_lt (length more.now) 5 && list_all (is_from 48 57) more.now) ≡ true }
    ensures { (decimal result ≡ first ∷ more.now) × (1 ≤ result) }
{
    let mut number = u64::from(first - b'0');
    for digit in more {
        number = 10 * number + u64::from(*digit - b'0');
    }
    number
}

/// Whether these digits are an array's size.
fn is_size(digits: &[u8]) -> bool
    ensures { (result ≡ true) ↔ IsSize digits.now }
{
    match digits {
        [] => false,
        [first, more @ ..] => is_numeral(*first, more)
            && number(*first, more) <= Limits::ARRAY_ELEMENTS,
    }
}

/// Whether a byte, then an opening byte, bytes between and a closing byte are a type string.
fn is_bracketed_text(first: u8, opening: u8, between: &[u8], closing: u8) -> bool
    ensures { (result ≡ true) ↔ IsTypeText (first ∷ opening ∷ between.now ++ closing ∷ []) }
{
    match (opening, closing) {
        (b'(', b')') => is_type_letter(first) && are_params(between),
        (b'[', b']') => is_value_letter(first) && is_size(between),
        _ => false,
    }
}

/// Whether these bytes are a type string.
fn is_type_text(bytes: &[u8]) -> bool
    ensures { (result ≡ true) ↔ IsTypeText bytes.now }
{
    match bytes {
        [letter] => is_type_letter(*letter),
        [first, opening, between @ .., closing] => {
            is_bracketed_text(*first, *opening, between, *closing)
        },
        _ => false,
    }
}

impl TypeText {
    /// The type string that these bytes are, where they are one or empty, and `None` where they are neither.
    pub fn read(alloc: Global, bytes: &[u8]) -> Result<Option<TypeText>, NoMemory>
        ensures { ReadsTypeText bytes.now result }
    {
        if !bytes.is_empty() && !is_type_text(bytes) {
            return Ok(None);
        }
        let bytes = Vec::from_slice(alloc, bytes)?;
        Ok(Some(TypeText { bytes }))
    }

    /// Its bytes.
    pub fn bytes(&self) -> &[u8]
        ensures bytes { result.now ≡ self.now }
        ensures text { IsTypeTextOrEmpty self.now }
    {
        self.bytes.as_slice()
    }

    /// An equal text.
    pub fn copy(&self, alloc: Global) -> Result<TypeText, NoMemory>
        ensures { IfOk result (λ copy. copy ≡ self.now) }
    {
        let bytes = Vec::from_slice(alloc, self.bytes.as_slice())?;
        Ok(TypeText { bytes })
    }
}

#[cfg(test)]
mod tests {
    use super::*;
    use std::test::Fail;

    /// Whether the bytes are read, and as they are.
    fn is_read(alloc: Global, bytes: &[u8]) -> Result<bool, Fail> {
        match TypeText::read(alloc, bytes)? {
            Some(text) => Ok(text.bytes() == bytes),
            None => Ok(false),
        }
    }

    #[test]
    fn a_letter_a_function_and_an_array_are_read(rt: HostRuntime) -> Result<(), Fail> {
        let alloc = rt.alloc();
        assert!(rt; is_read(alloc, b"v")?);
        assert!(rt; is_read(alloc, b"")?);
        assert!(rt; is_read(alloc, b"l(l1)")?);
        assert!(rt; is_read(alloc, b"l[16]")?);
        assert!(rt; is_read(alloc, b"l[65536]")?);
        assert!(rt; !is_read(alloc, b"7")?);
        Ok(())
    }

    #[test]
    fn a_function_has_at_most_six_parameters_and_none_void(rt: HostRuntime) -> Result<(), Fail> {
        let alloc = rt.alloc();
        assert!(rt; !is_read(alloc, b"l(v)")?);
        assert!(rt; !is_read(alloc, b"l(lllllll)")?);
        assert!(rt; !is_read(alloc, b"l(l")?);
        Ok(())
    }

    #[test]
    fn an_array_has_1_to_65536_elements_and_none_void(rt: HostRuntime) -> Result<(), Fail> {
        let alloc = rt.alloc();
        assert!(rt; !is_read(alloc, b"l[0]")?);
        assert!(rt; !is_read(alloc, b"l[65537]")?);
        assert!(rt; !is_read(alloc, b"l[016]")?);
        assert!(rt; !is_read(alloc, b"l[]")?);
        assert!(rt; !is_read(alloc, b"v[1]")?);
        Ok(())
    }

    #[test]
    fn a_copy_of_a_text_is_equal(rt: HostRuntime) -> Result<(), Fail> {
        match TypeText::read(rt.alloc(), b"l[16]")? {
            Some(text) => {
                let copy = text.copy(rt.alloc())?;
                assert_eq!(rt; copy.bytes(), b"l[16]".as_slice());
            }
            None => assert!(rt; false),
        }
        Ok(())
    }
}
