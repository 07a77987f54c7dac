//! Rows of the dependency table and of the structs of an ELF64 file, with the values of an independent model of the formats.
#![tactic(auto)]

#[cfg(test)]
mod damaged;
#[cfg(test)]
mod structs;
#[cfg(test)]
mod tables;
