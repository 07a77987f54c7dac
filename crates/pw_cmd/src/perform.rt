//! Does what the words ask for.
ghost use Rattle.pw_io.specs.Sink.{SinkState};
ghost use Rattle.pw_hart.specs.Outside.{outside};
ghost use Rattle.pw_cmd.specs.Commands.{performs};
ghost use Rattle.pw_cmd.specs.Words.{texts};

use crate::answer::{Ending, Stop};
use crate::one::one;
use crate::primitives::judge;
use pw_io::{Sink, Source, Store};
use pw_mem::Memory;
use std::alloc::Global;

/// Does what the words ask for.
pub fn perform<S: Store, I: Source, O: Sink, M: Memory>(
    alloc: Global,
    words: &[String],
    store: &mut S,
    input: &mut I,
    out: &mut O,
    mem: &mut M,
) -> Result<Ending, Stop>
    ensures { (messages : SinkState) → performs (texts words.now)
        (outside (S.state store.old) (I.state input.old) (O.state out.old)
        messages (M.state mem.old))
        (outside (S.state store.new) (I.state input.new) (O.state out.new)
        messages (M.state mem.new)) result }
{
    let request = judge(alloc, words)?;
    one(alloc, &request, store, input, out, mem)
}
