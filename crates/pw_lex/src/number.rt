//! Integer constants.
ghost use Rattle.std.specs.Prelude.{◌≡◌, ◌≤◌, length, drop};
ghost use Rattle.std.specs.List.{prefix_len};
ghost use Rattle.pw_lex.specs.Number as definition;
ghost use Rattle.pw_lex.specs.Reading as spec;

use crate::bytes::byte_at;
use crate::error::LexError;
use crate::token::TokenKind;

/// The base of an integer constant.
#[derive(Clone, Copy)]
pub enum Radix {
    Decimal,
    Hexadecimal,
}

/// What the spelling of an integer constant says.
#[derive(Clone, Copy)]
pub struct Constant {
    pub radix: Radix,
    /// Its value, or `None` for one of more than 64 bits.
    pub value: Option<u64>,
    /// Whether its suffix has a `u`.
    pub has_u: bool,
}

fn radix_of(bytes: &[u8]) -> Radix
    ensures { result ≡ spec.radix_of bytes.now }
{
    let second = byte_at(bytes, 1);
    if byte_at(bytes, 0) == b'0' && (second == b'x' || second == b'X') {
        Radix::Hexadecimal
    } else {
        Radix::Decimal
    }
}

/// What stands after the mark of the base.
fn after_mark(radix: Radix, bytes: &[u8]) -> &[u8]
    requires { spec.mark_len radix ≤ length bytes.now }
    ensures { result.now ≡ drop (spec.mark_len radix) bytes.now }
{
    match radix {
        Radix::Decimal => bytes,
        Radix::Hexadecimal => &bytes[2..],
    }
}

fn is_digit_in(radix: Radix, byte: u8) -> bool
    ensures { result ≡ definition.is_digit_in radix byte }
{
    match radix {
        Radix::Decimal => byte.is_ascii_digit(),
        Radix::Hexadecimal => byte.is_ascii_digit()
            || (b'A' <= byte && byte <= b'F')
            || (b'a' <= byte && byte <= b'f'),
    }
}

fn digits_len(radix: Radix, text: &[u8]) -> usize
    ensures value { result ≡ prefix_len (definition.is_digit_in radix) text.now }
    ensures within { result ≤ length text.now }
{
    text.iter()
        .take_while(|byte| is_digit_in(radix, **byte))
        .count()
}

fn has_leading_zero(radix: Radix, digits: &[u8]) -> bool
    ensures { result ≡ definition.has_leading_zero radix digits.now }
{
    match (radix, digits) {
        (Radix::Decimal, [first, _, ..]) => *first == b'0',
        (Radix::Decimal, _) | (Radix::Hexadecimal, _) => false,
    }
}

fn is_u(byte: u8) -> bool
    ensures { result ≡ definition.is_u byte }
{
    byte == b'u' || byte == b'U'
}

fn is_l(byte: u8) -> bool
    ensures { result ≡ definition.is_l byte }
{
    byte == b'l' || byte == b'L'
}

/// Whether a suffix has a `u`; `None` for bytes that are no suffix.
fn suffix_has_u(suffix: &[u8]) -> Option<bool>
    ensures { result ≡ definition.suffix_has_u suffix.now }
{
    match suffix {
        [] => Some(false),
        [a] if is_u(*a) => Some(true),
        [a] if is_l(*a) => Some(false),
        [a, b] if (is_u(*a) && is_l(*b)) || (is_l(*a) && is_u(*b)) => Some(true),
        _ => None,
    }
}

fn digit_value(byte: u8) -> u8
    ensures { result ≡ definition.digit_value byte }
{
    if byte <= b'9' {
        byte.saturating_sub(48)
    } else if byte <= b'F' {
        byte - 55
    } else {
        byte.saturating_sub(87)
    }
}

fn base(radix: Radix) -> u64
    ensures { result ≡ definition.base radix }
{
    match radix {
        Radix::Decimal => 10,
        Radix::Hexadecimal => 16,
    }
}

/// The value of digits, or `None` for one of more than 64 bits.
fn value(radix: Radix, digits: &[u8]) -> Option<u64>
    ensures { result ≡ spec.word_value (definition.value radix digits.now) }
{
    let base = base(radix);
    let mut value: u64 = 0;
    for digit in digits {
        let digit = u64::from(digit_value(*digit));
        if value > (u64::MAX - digit) / base {
            return None;
        }
        value = base * value + digit;
    }
    Some(value)
}

#[tactic(auto, unfolding(crate::specs::Reading::constant_in))]
fn constant_in(radix: Radix, after: &[u8]) -> Option<Constant>
    ensures { result ≡ spec.constant_in radix after.now }
{
    let (digits, suffix) = after.split_at(digits_len(radix, after));
    if digits.is_empty() || has_leading_zero(radix, digits) {
        return None;
    }
    suffix_has_u(suffix).map(|has_u| Constant {
        radix,
        value: value(radix, digits),
        has_u,
    })
}

fn limit(radix: Radix, has_u: bool) -> u64
    ensures { result ≡ definition.limit radix has_u }
{
    match (radix, has_u) {
        (Radix::Decimal, false) => i64::MAX as u64,
        (Radix::Decimal, true) | (Radix::Hexadecimal, _) => u64::MAX,
    }
}

fn is_unsigned(radix: Radix, has_u: bool, value: u64) -> bool
    ensures { result ≡ definition.is_unsigned radix has_u value }
{
    match radix {
        Radix::Decimal => has_u,
        Radix::Hexadecimal => has_u || value >= 1 << 63,
    }
}

/// The number that a whole run is, which begins with a digit and stands at `at`. Refusals: `BadNumber`, `TooWide`.
pub fn number(bytes: &[u8], at: u32) -> Result<TokenKind, LexError>
    ensures { result ≡ spec.number at (spec.constant_of bytes.now) }
{
    let radix = radix_of(bytes);
    match constant_in(radix, after_mark(radix, bytes)) {
        None => Err(LexError::BadNumber(at)),
        Some(constant) => number_kind(constant.radix, constant.has_u, constant.value, at),
    }
}

fn number_kind(
    radix: Radix,
    has_u: bool,
    value: Option<u64>,
    at: u32,
) -> Result<TokenKind, LexError>
    ensures { result ≡ spec.number_kind at radix has_u value }
{
    match value {
        Some(value) if value <= limit(radix, has_u) => Ok(TokenKind::Number(
            value,
            is_unsigned(radix, has_u, value),
        )),
        Some(_) | None => Err(LexError::TooWide(at)),
    }
}
