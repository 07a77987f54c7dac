//! The classes of bytes, and the runs of letters and digits.
ghost use Rattle.std.specs.Prelude.{◌≡◌, ◌≢◌, ◌<◌, ◌≤◌, length, slice_index};
ghost use Rattle.std.specs.List.{prefix_len};
ghost use Rattle.pw_lex.specs.Bytes as spec;

/// What a byte begins.
#[derive(Clone, Copy)]
pub enum Class {
    /// White space.
    White,
    /// A name or a keyword.
    Letter,
    /// A number.
    Digit,
    /// A character.
    Quote,
    /// A comment, a punctuator, or nothing.
    Other,
}

/// The class of a byte.
#[tactic(auto, unfolding(crate::specs::Bytes::class_of))]
pub fn class_of(byte: u8) -> Class
    ensures { result ≡ spec.class_of byte }
{
    if byte == b'\t' || byte == b'\n' || byte == b'\r' || byte == b' ' {
        Class::White
    } else if byte.is_ascii_uppercase() || byte.is_ascii_lowercase() || byte == b'_' {
        Class::Letter
    } else if byte.is_ascii_digit() {
        Class::Digit
    } else if byte == b'\'' {
        Class::Quote
    } else {
        Class::Other
    }
}

fn is_run_byte(byte: u8) -> bool
    ensures { result ≡ spec.is_run_byte byte }
{
    match class_of(byte) {
        Class::Letter | Class::Digit => true,
        Class::White | Class::Quote | Class::Other => false,
    }
}

/// How many letters and digits stand together at the beginning.
pub fn run_len(text: &[u8]) -> usize
    ensures value { result ≡ prefix_len spec.is_run_byte text.now }
    ensures within { result ≤ length text.now }
{
    text.iter().take_while(|byte| is_run_byte(**byte)).count()
}

/// The byte at a place, or 0 past the end.
pub fn byte_at(text: &[u8], at: usize) -> u8
    ensures value { result ≡ slice_index text.now at }
    ensures within { result ≢ 0 → at < length text.now }
{
    if at < text.len() { text[at] } else { 0 }
}
