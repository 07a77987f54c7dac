//! The commands: from the arguments of a command line to the exit status, a message line, the
//! output and the memory that ran. `top` takes the words after the program's name, `run` the
//! arguments, and `run_on_system` those of the system.
#![tactic(auto)]

mod answer;
mod commands;
mod ending;
mod fault;
mod hexadecimal;
mod laws;
mod link_fault;
mod message;
mod one;
mod perform;
mod primitives;
mod program;
mod refusal;
mod says;
mod system;
mod words;

pub use commands::top;
pub use laws::commands_obey_the_laws;
pub use program::run;
pub use system::run_on_system;
