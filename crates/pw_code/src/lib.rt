//! The code scheme: which instructions each expression, statement and function of a unit is compiled to, as definitions, and
//! the data of compiled code: items, functions and objects.
#![tactic(auto)]

mod frame;
mod item;
pub mod laws;
mod object;

pub use frame::Frame;
pub use item::Item;
pub use object::{FunCode, Object};
