//! Code generation: the object of a well-typed unit, as the code scheme defines it.
//!
//! [`object`] compiles a unit; [`objects_are_sound`] says of the definition alone that a well-typed unit has a sound object.
//! The files stand in the order in which a unit is compiled: places of code, sizes, the code of assignments, of conditions and
//! jumps, of statements and of functions; the functions that a body names; the variables and their numbers; the object.
#![tactic(auto)]

mod assignment;
mod branch_places;
mod control;
mod dependencies;
mod function;
mod function_text;
mod laws;
mod numbers;
mod place;
mod reference_list;
mod size;
mod statement;
mod unit;
mod variables;

pub use laws::objects_are_sound;
pub use unit::object;
