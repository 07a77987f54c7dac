//! The command `one FILE`: the file is read, it is compiled, the image of its unit's program is put
//! into the memory, and it runs.
ghost use Rattle.std.specs.Prelude.{◌≤◌};
ghost use Rattle.pw_base.specs.Limits.{given_steps};
ghost use Rattle.pw_hart.specs.Outside.{outside};
ghost use Rattle.pw_io.specs.Sink.{SinkState};
ghost use Rattle.pw_cmd.specs.Commands.{one};

use crate::answer::{Ending, Stop};
use crate::primitives::{build, compile, read, run_image};
use crate::words::Request;
use pw_io::{Sink, Source, Store};
use pw_mem::Memory;
use std::alloc::Global;

/// Carries out `one FILE`.
pub fn one<S: Store, I: Source, O: Sink, M: Memory>(
    alloc: Global,
    request: &Request,
    store: &mut S,
    input: &mut I,
    out: &mut O,
    mem: &mut M,
) -> Result<Ending, Stop>
    requires { request.now.steps ≤ given_steps }
    ensures { (messages : SinkState) → one request.now
        (outside (S.state store.old) (I.state input.old) (O.state out.old)
        messages (M.state mem.old))
        (outside (S.state store.new) (I.state input.new) (O.state out.new)
        messages (M.state mem.new)) result }
{
    let text = read(alloc, request.word, &request.file, store)?;
    let unit = compile(alloc, request.word, &text)?;
    let rows = build(alloc, &request.file, &unit, mem)?;
    run_image(&unit, rows, request.steps, mem, input, out)
}
