//! Cuts a source text into its tokens, or answers the first place where the text is no C of this product.
//!
//! `tokens` promises the whole: the text is white space, comments and tokens in turn, each token the longest that
//! fits, or the five faults are answered exactly, the first in the text.
#![tactic(auto)]

mod bytes;
mod character;
mod comment;
mod error;
mod laws;
mod lexer;
mod line;
mod number;
mod prefix;
mod spellings;
mod token;
mod word;

pub use error::LexError;
pub use laws::{a_text_reads_in_one_way, tokens_go_by_their_spellings, tokens_stand_in_their_text};
pub use lexer::tokens;
pub use line::{end_line, line_at};
pub use token::{Token, TokenKind};
