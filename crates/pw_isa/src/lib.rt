//! The instructions of RV64I and M, as instruction words and as values, and the names of what they work on.
//!
//! [`Inst`] has a variant for each name of the manual's listing. [`encode`] gives the instruction word of an
//! instruction, and [`decode`] the instruction whose row an instruction word matches, or `None` exactly where it
//! matches none. [`laws`] says that each undoes the other. [`registers`] and [`environment_calls`] name numbers.
//! Nothing here takes memory.
#![tactic(auto)]

mod decoder;
mod encoder;
pub mod environment_calls;
mod fields;
mod formats;
mod instruction;
pub mod laws;
pub mod registers;

pub use decoder::decode;
pub use encoder::encode;
pub use instruction::Inst;
