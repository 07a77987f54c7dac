//! Rows of placing, with the values of an independent model of the linker.
#![tactic(auto)]

#[cfg(test)]
mod answer;
#[cfg(test)]
mod data_rows;
#[cfg(test)]
mod digest;
#[cfg(test)]
mod distances;
#[cfg(test)]
mod faults;
#[cfg(test)]
mod limits;
#[cfg(test)]
mod programs;
#[cfg(test)]
mod sources;
