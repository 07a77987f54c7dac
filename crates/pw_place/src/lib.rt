//! Placing: objects are merged into the parts of one module.
//!
//! The functions stand one after another, a program's entry first; each external name that the code refers to has a slot at
//! the start of the data, the variables follow, and every reference is resolved to a slot or to the definition itself. Where
//! that can't be done, the first fault is reported.
#![tactic(auto)]

mod counts;
mod data;
mod defined_names;
mod definitions;
mod distance;
mod externals;
mod link_error;
mod merging;
mod name_kinds;
mod name_list;
mod other_texts;
mod placed;
mod places;
mod placing;
mod pointers;
mod records;
mod refusals;
mod relocations;
mod sizes;
mod slots;
mod symbol_numbers;
mod symbols;
mod text;
mod variable_text;

pub use distance::hi_lo;
pub use link_error::{LinkError, What};
pub use merging::merge;
pub use placed::Placed;
