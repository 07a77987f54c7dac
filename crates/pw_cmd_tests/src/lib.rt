//! What the commands answer, write and leave: on worked programs, on refused texts, where calls fail, and for command lines of
//! every kind. The expected values are those of the language and of an independent model of it.
#![tactic(auto)]

#[cfg(test)]
mod arguments;
#[cfg(test)]
mod command;
#[cfg(test)]
mod failures;
#[cfg(test)]
mod memory;
#[cfg(test)]
mod operators;
#[cfg(test)]
mod programs;
#[cfg(test)]
mod refusals;
#[cfg(test)]
mod words;
