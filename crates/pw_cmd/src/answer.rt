//! What a command answers, and the status that it ends with.
ghost use Rattle.std.specs.Prelude.{◌≡◌};
ghost use Rattle.pw_cmd.specs.Answer.{status_of, status_of_ending};

use crate::refusal::Refusal;
use pw_module::KeptRow;

/// How a run ended.
#[derive(Drop)]
pub enum Ending {
    /// `main` returned this value.
    Ended(u64),
    /// A check of the program failed: of this kind, in the function of this row, and in this line.
    /// A run of which the input reports bytes has a row.
    Faulted(u8, Option<KeptRow>, u64),
    /// No counted step was left.
    Spent,
    /// An instruction could not be carried out: the cause, the address of the instruction, and the
    /// value. Where the input reports bytes, no run ends so.
    Trapped(u8, u64, u64),
    /// So many instructions were fetched, as many as were allowed. Where the input reports bytes, no
    /// run ends so.
    Limited(u64),
}

/// Why a command has no ending.
#[derive(Drop)]
pub enum Stop {
    /// The words are of no command.
    Usage,
    /// The input of the command is refused.
    Refused(Refusal),
    /// A call to read failed.
    ReadFailed,
    /// A call to write failed.
    WriteFailed,
    /// Out of memory.
    NoMemory,
}

/// The status of a run that ended so.
fn status_of_ending(ending: &Ending) -> u8
    ensures { result ≡ status_of_ending ending.now }
{
    match ending {
        Ending::Ended(0) => 0,
        Ending::Ended(_) => 1,
        Ending::Faulted(..) => 4,
        Ending::Spent => 5,
        Ending::Limited(_) => 5,
        Ending::Trapped(..) => 9,
    }
}

/// The status that the program ends with where its message was written.
pub fn status(answer: &Result<Ending, Stop>) -> u8
    ensures { result ≡ status_of answer.now }
{
    match answer {
        Ok(ending) => status_of_ending(ending),
        Err(Stop::Usage) => 2,
        Err(Stop::Refused(_)) => 3,
        Err(Stop::ReadFailed) => 6,
        Err(Stop::WriteFailed) => 7,
        Err(Stop::NoMemory) => 8,
    }
}
