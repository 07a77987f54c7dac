//! The environment calls by their numbers, which stand in a7, and the kinds of checked faults, which stand in a0.
//!
//! `specs/EnvironmentCalls.antt` writes the same numbers out for contracts.

/// Ends the run with the value in a0.
pub const EXIT: u64 = 93;
/// Takes the next byte of the input into a0, or all ones at its end.
pub const INPUT: u64 = 1024;
/// Appends the lowest byte of a0 to the output.
pub const OUTPUT: u64 = 1025;
/// Ends the run with a checked fault, of the kind in a0 and in the line in a1.
pub const FAULT: u64 = 1026;

/// The kind of the checked fault of an index out of its array.
pub const INDEX_FAULT: u8 = 1;
/// The kind of a division by 0.
pub const DIVISION_FAULT: u8 = 2;
/// The kind of a call of null.
pub const NULL_CALL_FAULT: u8 = 3;
/// The kind of a call past the limit of calls alive.
pub const DEPTH_FAULT: u8 = 4;
