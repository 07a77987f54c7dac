//! Judges the words after the program's name.
ghost use Rattle.std.specs.Prelude.{[], ◌∷◌};
ghost use Rattle.pw_cmd.specs.Steps.{ReadsFileName, ReadsRequest, ReadsSteps};
ghost use Rattle.pw_cmd.specs.Words.{ReadsCommand, texts};

use pw_base::{Limits, Name, NameError};
use std::alloc::Global;

/// What the words ask for: to build the file as the one unit of the program `app`, and to run it.
#[derive(Drop)]
pub struct Request {
    /// The file.
    pub file: Name,
    /// The number of the word that names it, from 0.
    pub word: usize,
    /// The counted steps that the run may take.
    pub steps: u64,
}

/// Why the words are of no command.
#[derive(Clone, Copy)]
pub enum CommandError {
    /// They are of none.
    NoCommand,
    /// Out of memory.
    NoMemory,
}

/// The word of the command.
const ONE: &[u8] = b"one";

/// The word before the number of counted steps.
const STEPS: &[u8] = b"--steps";

/// A number of counted steps is written with at most so many digits.
const STEPS_DIGITS: usize = 10;

/// What the words ask for. Refusal: `NoCommand` exactly where they are not `one FILE`,
/// `one FILE --steps N` or `one --steps N FILE`, with a name for FILE that begins with no dash, and
/// for N 1 to 10 decimal digits that write a number of at most 1,000,000,000.
pub fn asked(alloc: Global, words: &[String]) -> Result<Request, CommandError>
    ensures { ReadsCommand (texts words.now) result }
{
    match words.len() {
        2 => file_alone(alloc, words[0].as_bytes(), words[1].as_bytes()),
        4 => file_and_steps(
            alloc,
            words[0].as_bytes(),
            words[1].as_bytes(),
            words[2].as_bytes(),
            words[3].as_bytes(),
        ),
        _ => Err(CommandError::NoCommand),
    }
}

/// What two words ask for.
fn file_alone(alloc: Global, command: &[u8], file: &[u8]) -> Result<Request, CommandError>
    ensures { ReadsCommand (command.now ∷ file.now ∷ []) result }
{
    if command != ONE {
        return Err(CommandError::NoCommand);
    }
    let file = file_of(alloc, file)?;
    Ok(Request {
        file,
        word: 1,
        steps: Limits::STEPS,
    })
}

/// What four words ask for.
fn file_and_steps(
    alloc: Global,
    command: &[u8],
    first: &[u8],
    second: &[u8],
    third: &[u8],
) -> Result<Request, CommandError>
    ensures { ReadsCommand (command.now ∷ first.now ∷ second.now ∷ third.now ∷ []) result }
{
    if command != ONE {
        return Err(CommandError::NoCommand);
    }
    if first == STEPS {
        return read_request(alloc, third, 3, second);
    }
    if second == STEPS {
        return read_request(alloc, first, 1, third);
    }
    Err(CommandError::NoCommand)
}

/// The file that a word names, with so many counted steps, which another word writes.
fn read_request(
    alloc: Global,
    file: &[u8],
    word: usize,
    steps: &[u8],
) -> Result<Request, CommandError>
    ensures { ReadsRequest file.now word steps.now result }
{
    match steps_of(steps) {
        Some(steps) => match file_of(alloc, file) {
            Ok(file) => Ok(Request { file, word, steps }),
            Err(error) => Err(error),
        },
        None => Err(CommandError::NoCommand),
    }
}

/// The name of a file, which begins with no dash.
fn file_of(alloc: Global, bytes: &[u8]) -> Result<Name, CommandError>
    ensures { ReadsFileName bytes.now result }
{
    if bytes.first() == Some(&b'-') {
        return Err(CommandError::NoCommand);
    }
    match Name::read(alloc, bytes) {
        Ok(file) => Ok(file),
        Err(NameError::NoMemory) => Err(CommandError::NoMemory),
        Err(NameError::Empty) => Err(CommandError::NoCommand),
        Err(NameError::TooLong(_)) => Err(CommandError::NoCommand),
        Err(NameError::BadByte(_)) => Err(CommandError::NoCommand),
    }
}

/// The number of counted steps that a word writes; none where it writes none that may be given.
fn steps_of(word: &[u8]) -> Option<u64>
    ensures { ReadsSteps word.now result }
{
    if word.is_empty() || STEPS_DIGITS < word.len() {
        return None;
    }
    let mut steps = 0;
    for digit in word {
        if *digit < b'0' || b'9' < *digit {
            return None;
        }
        steps = 10 * steps + u64::from(*digit - b'0');
    }
    if steps <= Limits::GIVEN_STEPS {
        Some(steps)
    } else {
        None
    }
}
