//! Comments: the length of the one at the beginning of a text.
ghost use Rattle.std.specs.Prelude.{◌≡◌, ◌≤◌, length, IfSome};
ghost use Rattle.std.specs.List.{prefix_len};
ghost use Rattle.pw_lex.specs.Fault.{not_newline};
ghost use Rattle.pw_lex.specs.Reading as spec;

use crate::bytes::byte_at;

/// How many bytes stand before the next end of a line.
pub fn line_len(text: &[u8]) -> usize
    ensures { result ≡ prefix_len not_newline text.now }
{
    text.iter().take_while(|byte| **byte != b'\n').count()
}

/// The length up to and with the first `*/`.
pub fn close_len(text: &[u8]) -> Option<usize>
    ensures value { result ≡ spec.close_from 0 text.now }
    ensures within { IfSome result (λ len. len ≤ length text.now) }
{
    for (at, byte) in text.iter().enumerate() {
        if *byte == b'*' && byte_at(text, at + 1) == b'/' {
            return Some(at + 2);
        }
    }
    None
}
