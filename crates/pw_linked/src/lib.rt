//! Modules that are linked: what makes a list of modules a project that can be run. These are laws alone; nothing here runs.
#![tactic(auto)]

mod laws;

pub use laws::{a_program_is_linked, linked_modules_can_run, linked_modules_run_as_meant};
