//! Tests of the ports, the memory, the instructions and the processor, by their public calls. The expected values come
//! from the manuals, from other tools, or from an independent model of the machine.
#![tactic(auto)]

#[cfg(test)]
mod accesses;
#[cfg(test)]
mod computations;
#[cfg(test)]
mod ends;
#[cfg(test)]
mod instruction_words;
#[cfg(test)]
mod jumps;
#[cfg(test)]
mod machine;
#[cfg(test)]
mod memory;
#[cfg(test)]
mod ports;
#[cfg(test)]
mod runs;
