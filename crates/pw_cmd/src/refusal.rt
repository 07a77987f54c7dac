//! What an input file, or the program that is made of it, is refused for.
ghost use Rattle.pw_cmd.specs.Answer.{file_text};

use crate::fault::FrontFault;
use crate::says::Says;
use pw_base::Name;
use pw_io::{Failed, Sink};
use pw_place::LinkError;

/// What a file is refused for.
#[derive(Clone, Copy)]
pub enum FileFault {
    /// It has more bytes than this limit.
    TooLong(u64),
    /// Its text has no typed unit: its first fault.
    Source(FrontFault),
}

/// Why the input of a command is refused.
#[derive(Drop)]
pub enum Refusal {
    /// The file that the word of this number names, from 0, is refused.
    File(usize, FileFault),
    /// The objects are no program: the first fault of their link.
    Link(LinkError),
    /// The program uses this name and does not define it.
    Unbound(Name),
}

impl Says for FileFault {
    ghost text = { file_text };

    fn say<E: Sink>(&self, sink: &mut E) -> Result<(), Failed> {
        match self {
            FileFault::TooLong(limit) => ("more than ", (*limit, " bytes")).say(sink),
            FileFault::Source(fault) => fault.say(sink),
        }
    }
}
