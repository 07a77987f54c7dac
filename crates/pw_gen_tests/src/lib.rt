//! Tables of statements, functions and units, and the code and the object of each.
#![tactic(auto)]

#[cfg(test)]
mod branches;
#[cfg(test)]
mod far_lines;
#[cfg(test)]
mod functions;
#[cfg(test)]
mod loops;
#[cfg(test)]
mod objects;
mod quiet;
#[cfg(test)]
mod rows;
#[cfg(test)]
mod settings;
#[cfg(test)]
mod shown;
#[cfg(test)]
mod units;

pub use quiet::quiet_unit;
