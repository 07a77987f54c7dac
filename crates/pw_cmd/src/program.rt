//! The program as a call: from the arguments of a command line to the exit status.
ghost use Rattle.pw_arguments.specs.Arguments.{bytes_of};
ghost use Rattle.pw_hart.specs.Outside.{outside};
ghost use Rattle.pw_cmd.specs.Program.{Ends, Exits};

use crate::answer::Stop;
use crate::commands::top;
use crate::message::report;
use pw_arguments::{Arguments, WordsError, read_arguments, words_of};
use pw_io::{Sink, Source, Store};
use pw_mem::Memory;
use std::alloc::Global;

/// The words of a command are fewer than this, and so are their bytes together.
const WORDS_END: usize = 0x8000_0000;

/// Does what the arguments after the program's name ask for, says on `msg` how that ended, and
/// answers the exit status and the memory. Where the arguments are no words, it says how the program
/// is used, and the status is 2, or 7 where that fails; the program's name is never read.
pub fn run<A: Arguments, S: Store, I: Source, O: Sink, E: Sink, M: Memory>(
    alloc: Global,
    arguments: &A,
    store: &mut S,
    input: &mut I,
    out: &mut O,
    msg: &mut E,
    mem: M,
) -> (u8, M)
    ensures { Exits (A.list arguments.now)
        (outside (S.state store.old) (I.state input.old) (O.state out.old) (E.state msg.old) (M.state mem))
        (outside (S.state store.new) (I.state input.new) (O.state out.new) (E.state msg.new) (M.state result.1)) result.0 }
{
    match read_arguments(alloc, arguments) {
        Ok(found) => command(alloc, found.as_slice(), store, input, out, msg, mem),
        Err(_) => (report(msg, &[], &Err(Stop::NoMemory)), mem),
    }
}

/// The same for the arguments after the program's name.
fn command<S: Store, I: Source, O: Sink, E: Sink, M: Memory>(
    alloc: Global,
    arguments: &[Vec<u8>],
    store: &mut S,
    input: &mut I,
    out: &mut O,
    msg: &mut E,
    mem: M,
) -> (u8, M)
    ensures { Ends (bytes_of arguments.now)
        (outside (S.state store.old) (I.state input.old) (O.state out.old) (E.state msg.old) (M.state mem))
        (outside (S.state store.new) (I.state input.new) (O.state out.new) (E.state msg.new) (M.state result.1)) result.0 }
{
    match words_of(alloc, arguments, WORDS_END) {
        Ok(words) => top(alloc, words.as_slice(), store, input, out, msg, mem),
        Err(WordsError::NoWords) => (report(msg, &[], &Err(Stop::Usage)), mem),
        Err(WordsError::NoMemory) => (report(msg, &[], &Err(Stop::NoMemory)), mem),
    }
}
