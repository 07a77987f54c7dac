//! Texts with their tokens, or with their first fault, as an independent model of the language gives them.
#![tactic(auto)]

#[cfg(test)]
mod constants;
#[cfg(test)]
mod faults;
#[cfg(test)]
mod rows;
#[cfg(test)]
mod tokens;
