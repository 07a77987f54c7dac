//! Character constants.
ghost use Rattle.std.specs.Prelude.{◌≡◌};
ghost use Rattle.pw_lex.specs.Character as definition;
ghost use Rattle.pw_lex.specs.Reading as spec;

use crate::bytes::byte_at;

fn is_plain(byte: u8) -> bool
    ensures { result ≡ definition.is_plain byte }
{
    (32 <= byte && byte <= 126) && !(byte == b'\'' || byte == b'\\')
}

/// What an escape's byte stands for.
fn escaped(byte: u8) -> Option<u8>
    ensures { result ≡ definition.escaped byte }
{
    match byte {
        b'n' => Some(b'\n'),
        b't' => Some(b'\t'),
        b'r' => Some(b'\r'),
        b'0' => Some(0),
        b'\\' | b'\'' | b'"' => Some(byte),
        _ => None,
    }
}

/// The value and the length of the character constant at the beginning of a text that begins with a quote.
#[tactic(auto, unfolding(crate::specs::Reading::character_of))]
pub fn character_of(text: &[u8]) -> Option<(u8, usize)>
    ensures { result ≡ spec.character_of text.now }
{
    let byte = byte_at(text, 1);
    if byte == b'\\' && byte_at(text, 3) == b'\'' {
        escaped(byte_at(text, 2)).map(|value| (value, 4))
    } else if is_plain(byte) && byte_at(text, 2) == b'\'' {
        Some((byte, 3))
    } else {
        None
    }
}
