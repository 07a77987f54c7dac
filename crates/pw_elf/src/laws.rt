//! Laws of numbers and sizes, each the contract of a function.
ghost use Rattle.pw_elf.specs.NumbersOfCode.{NumbersAgree, SizesAgree};

/// Each constant is the number that the gABI or the psABI has under its name.
pub fn constants_are_those_of_the_standards()
    ensures { NumbersAgree }
{}

/// The size of each struct is that of the bytes that it is written as.
pub fn sizes_are_those_of_the_structs()
    ensures { SizesAgree }
{}
