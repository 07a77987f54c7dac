//! Which arguments are the words of a command.
ghost use Rattle.std.specs.Prelude.{◌≡◌, ◌<◌, IsTrue, IsFalse, IfOk, All, IsUtf8, map, string_bytes};
ghost use Rattle.pw_arguments.specs.Arguments.{bytes_of};
ghost use Rattle.pw_arguments.specs.Words.{AreWords, GivesWords};

use pw_base::NoMemory;
use std::alloc::Global;
use std::str;
use thiserror::Error;

/// Why arguments give no words.
#[derive(Clone, Copy, PartialEq, Eq, Debug, Error)]
pub enum WordsError {
    /// They are no words.
    #[error("no words")]
    NoWords,
    /// Out of memory.
    #[error("out of memory")]
    NoMemory,
}

/// Whether arguments are words: each is text, they are fewer than `limit`, and so are their bytes together.
pub fn are_words(arguments: &[Vec<u8>], limit: usize) -> bool
    requires { 0 < limit }
    ensures yes { IsTrue result → AreWords limit (bytes_of arguments.now) }
    ensures no { IsFalse result → ¬ AreWords limit (bytes_of arguments.now) }
{
    if arguments.len() >= limit {
        return false;
    }
    let mut bytes = 0;
    for argument in arguments {
        let argument = argument.as_slice();
        if argument.len() >= limit - bytes || !is_text(argument) {
            return false;
        }
        bytes += argument.len();
    }
    true
}

/// Whether bytes are text: UTF-8.
fn is_text(bytes: &[u8]) -> bool
    ensures yes { IsTrue result → IsUtf8 bytes.now }
    ensures no { IsFalse result → ¬ IsUtf8 bytes.now }
{
    str::from_utf8(bytes).is_ok()
}

/// The words that arguments are.
///
/// Refusals: `NoWords` exactly where they are no words with this limit; `NoMemory` only where they are.
pub fn words_of(
    alloc: Global,
    arguments: &[Vec<u8>],
    limit: usize,
) -> Result<Vec<String>, WordsError>
    requires { 0 < limit }
    ensures { GivesWords limit (bytes_of arguments.now) result }
{
    if !are_words(arguments, limit) {
        return Err(WordsError::NoWords);
    }
    match copied(alloc, arguments) {
        Ok(words) => Ok(words),
        Err(NoMemory) => Err(WordsError::NoMemory),
    }
}

/// Texts of arguments that are text.
fn copied(alloc: Global, arguments: &[Vec<u8>]) -> Result<Vec<String>, NoMemory>
    requires { All IsUtf8 (bytes_of arguments.now) }
    ensures { IfOk result (λ words. map string_bytes words.items ≡ bytes_of arguments.now) }
{
    let mut words = Vec::new(alloc);
    for argument in arguments {
        match str::from_utf8(argument.as_slice()) {
            Ok(text) => {
                if words.push(String::from_str(alloc, text)?).is_err() {
                    return Err(NoMemory);
                }
            }
            Err(_) => unreachable!(),
        }
    }
    Ok(words)
}
