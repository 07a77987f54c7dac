//! The arguments of a command line: read after the program's name, and given as words where they are text and not too many.
#![tactic(auto)]

mod arguments;
mod system;
mod words;

pub use arguments::{Arguments, read_arguments};
pub use system::SystemArguments;
pub use words::{WordsError, are_words, words_of};
