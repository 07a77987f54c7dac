//! The lines of a text, as messages name them.
ghost use Rattle.std.specs.Prelude.{◌≡◌, ◌≤◌, ◌+◌, ◌^◌, ◌<◌, length};
ghost use Rattle.std.specs.List.{count_by};
ghost use Rattle.pw_lex.specs.Text.{line_of, is_newline};

/// How many lines end in a text.
pub fn newlines(text: &[u8]) -> usize
    ensures value { result ≡ count_by is_newline text.now }
    ensures within { result ≤ length text.now }
{
    text.iter().filter(|byte| **byte == b'\n').count()
}

/// The line, from 1, of the byte at `at`, or of the text's end where `at` is its length.
pub fn line_at(text: &[u8], at: usize) -> usize
    requires within { at ≤ length text.now }
    requires short { at < 2 ^ 63 }
    ensures line { result ≡ line_of text.now at }
    ensures within { result ≤ at + 1 }
{
    1 + newlines(&text[..at])
}

/// The line, from 1, of the text's end: one more than the number of line ends.
pub fn end_line(text: &[u8]) -> usize
    requires { length text.now < 2 ^ 63 }
    ensures line { result ≡ 1 + count_by is_newline text.now }
    ensures within { result ≤ length text.now + 1 }
{
    1 + newlines(text)
}
