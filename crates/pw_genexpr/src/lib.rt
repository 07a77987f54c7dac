//! The code of expressions, appended to items: [`emit_expr`] for a whole expression, [`expression_words`] for its size, and
//! the pieces that the code of statements and functions has too.
//!
//! Each call appends the items of a definition of the code scheme (`pw_code`); out of memory, a prefix of them.
#![tactic(auto)]

mod checks;
mod expression;
mod forms;
mod immediate;
mod jumps;
mod operators;
mod put;
mod slots;
mod words;

pub use checks::{check_index_words, fault_words, put_check_index, put_check_nonzero, put_fault};
pub use expression::emit_expr;
pub use immediate::{immediate_words, put_load_immediate};
pub use jumps::{put_skip, put_unless_nonzero, put_unless_zero};
pub use put::{put_address, put_instruction, put_instructions};
pub use slots::{held_slot, local_slot, put_hold, put_load_held};
pub use words::expression_words;
