//! Reads a whole source text: its typed unit, or its first fault with the line. The law says that a text has one typed
//! unit at most, and none where it has a fault.
#![tactic(auto)]

mod error;
mod laws;
mod message;
mod unit;

pub use error::FrontError;
pub use laws::a_text_has_one_reading;
pub use message::{lex_phrase, syntax_phrase};
pub use unit::front;
