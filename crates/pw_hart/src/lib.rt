//! The simulated processor: a hart of RV64I and M, as the RISC-V unprivileged manual has it.
//!
//! [`Hart`] holds the registers, the program counter and the counted steps that are left. [`Hart::step`] carries out one
//! instruction and [`Hart::run`] up to so many, on any memory, input and output. What they answer and leave is the
//! machine's step and run of `specs/`, of which one clause says what one instruction does. Nothing here takes memory.
//!
//! Counted steps bound a run. A jump with x1 as its link, and a jump or taken branch that goes to an address not above
//! its own, takes one step (`jalr` without a link takes none); where none is left the run ends as [`End::Spent`], with
//! that instruction not carried out. Environment calls go by a7: 93 exits with a0, 1024 takes a byte of input into a0
//! (all ones at its end), 1025 appends the lowest byte of a0 to the output, and 1026 is a checked fault of the kind a0,
//! from 1 to 4, in the line a1. An instruction that traps or ends the run changes no register.
#![tactic(auto)]

mod access;
mod compute;
mod ends;
mod environment;
mod execute;
mod hart;
mod integer;
mod multiply;
mod operation;
mod run;
mod word;

pub use ends::End;
pub use hart::Hart;
