//! The program `pw` again, with a stored run that ends with status 4.
#![tactic(auto)]

use pw_cmd::run_on_system;
use std::process::ExitCode;

fn main(rt: HostRuntime) -> ExitCode {
    run_on_system(&rt, rt.stdin(), rt.stdout(), rt.stderr())
}
