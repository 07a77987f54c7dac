//! The program on the system: its arguments, the current folder and its streams.
ghost use Rattle.std.specs.Process.{exit_status};
ghost use Rattle.pw_cmd.specs.System.{ExitsSomehow};

use crate::program::run;
use pw_arguments::SystemArguments;
use pw_io::{DirStore, StdSink, StdSource};
use pw_mem::FlatMemory;
use std::env::Env;
use std::io::{Read, Write};
use std::process::ExitCode;
use std::rt::Files;

/// Runs the program with the arguments and the current folder of this system, on these streams, and
/// ends with this status. The messages go to `errors`.
pub fn run_on_system<
    R: Env + Files + AllocGlobal,
    I: Read + Drop,
    O: Write + Drop,
    E: Write + Drop,
>(system: &R, input: I, output: O, errors: E) -> ExitCode
    ensures { ExitsSomehow (exit_status result) }
{
    let mut store = DirStore::new(system);
    let mut source = StdSource::new(input);
    let mut out = StdSink::new(output);
    let mut msg = StdSink::new(errors);
    let (status, _) = run(
        system.alloc(),
        &SystemArguments::new(system),
        &mut store,
        &mut source,
        &mut out,
        &mut msg,
        FlatMemory::new(system.alloc()),
    );
    ExitCode::from(status)
}
