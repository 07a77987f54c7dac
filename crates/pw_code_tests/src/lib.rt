//! Tables of expressions and the code of each.
#![tactic(auto)]

#[cfg(test)]
mod calls;
#[cfg(test)]
mod choices;
mod first;
#[cfg(test)]
mod names;
#[cfg(test)]
mod numbers;
#[cfg(test)]
mod operators;
#[cfg(test)]
mod pieces;
#[cfg(test)]
mod rows;

pub use first::first_code;
