//! Which functions are kept: those that a root leads to, each with its level, the length of a shortest way from a root, and
//! its parent on such a way.
#![tactic(auto)]

mod closure;
mod graph;
mod laws;
mod way;

pub use closure::close;
pub use graph::{Graph, Levels};
pub use laws::kept_functions_have_levels;
pub use way::path;
