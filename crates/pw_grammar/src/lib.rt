//! The grammar of a unit, as derivations of whole token lists, and the laws that a reader of token lists rests on.
#![tactic(auto)]

mod error;
mod laws;
mod sort;

pub use error::SyntaxError;
pub use laws::{
    a_list_has_a_tree_or_a_first_fault, reading_tells_the_tree_or_the_first_fault,
    symbols_stand_beside_their_texts, tokens_are_small, trees_are_read, trees_are_written,
};
pub use sort::{Sort, is_same, sort_of, word_of};
