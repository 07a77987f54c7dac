//! The registers by their names in the psABI ("Integer Register Convention").
//!
//! `specs/Registers.antt` writes the same numbers out for contracts.

/// Reads as 0, and a write to it is dropped.
pub const ZERO: u8 = 0;
/// The address that a call returns to.
pub const RA: u8 = 1;
/// The stack pointer.
pub const SP: u8 = 2;
/// The first temporary.
pub const T0: u8 = 5;
/// The second temporary.
pub const T1: u8 = 6;
/// The third temporary.
pub const T2: u8 = 7;
/// The first saved register, which is also the frame pointer.
pub const S0: u8 = 8;
/// The second saved register.
pub const S1: u8 = 9;
/// The first argument and the result, also those of an environment call.
pub const A0: u8 = 10;
/// The second argument.
pub const A1: u8 = 11;
/// The third argument.
pub const A2: u8 = 12;
/// The fourth argument.
pub const A3: u8 = 13;
/// The fifth argument.
pub const A4: u8 = 14;
/// The sixth argument.
pub const A5: u8 = 15;
/// The seventh argument.
pub const A6: u8 = 16;
/// The eighth argument, and the number of an environment call.
pub const A7: u8 = 17;
