//! The limits of the product and the addresses of its memory, each a number with a name.
//!
//! `specs/Limits.antt` writes the same numbers out for contracts, so that a contract does not move with a constant here.

/// The limits that refusals speak of, and the places of the parts of memory.
pub struct Limits;

impl Limits {
    /// The bytes of a source file or a manifest.
    pub const SOURCE_BYTES: u64 = 1_048_576;
    /// The bytes of an object, a shared object or a saved image.
    pub const FILE_BYTES: u64 = 67_108_864;
    /// The files that a command loads.
    pub const FILES: usize = 1_024;
    /// The bytes of a name.
    pub const NAME_BYTES: usize = 63;
    /// The tokens of a function.
    pub const FUNCTION_TOKENS: usize = 8_192;
    /// The brackets that may be open at once.
    pub const OPEN_BRACKETS: usize = 200;
    /// The parameters of a function.
    pub const PARAMETERS: usize = 6;
    /// The parameters and locals of a function.
    pub const LOCALS: usize = 120;
    /// The values that an expression or an assignment holds at once.
    pub const HELD_VALUES: u32 = 100;
    /// The elements of an array.
    pub const ARRAY_ELEMENTS: u64 = 65_536;
    /// The modules of a project.
    pub const MODULES: usize = 32;
    /// The units of a module.
    pub const MODULE_UNITS: usize = 64;
    /// The modules that a module needs.
    pub const MODULE_NEEDS: usize = 64;
    /// The elements of the variables of a module, and so of a unit.
    pub const MODULE_ELEMENTS: u64 = 262_144;
    /// The external names of a module, and so the functions that a unit can show to others.
    pub const MODULE_NAMES: usize = 16_384;
    /// The bytes of text of a module.
    pub const TEXT_BYTES: u64 = 16_777_216;
    /// The calls that may be alive at once, that of `main` included.
    pub const CALLS: u64 = 1_000;
    /// The counted steps of a run where the words give none.
    pub const STEPS: u64 = 1_000_000;
    /// The counted steps that the words may give at most.
    pub const GIVEN_STEPS: u64 = 1_000_000_000;
    /// The functions of a sample project, beside its program's two.
    pub const SAMPLE_FUNCTIONS: u32 = 3_500;
    /// The distance between the bases of two modules in memory, in bytes; the first module has this base.
    pub const MODULE_SPAN: u64 = 0x400_0000;
    /// Where a module's text stands, in bytes from its base.
    pub const TEXT_OFFSET: u64 = 0x100_0000;
    /// Where a module's data stand, in bytes from its base: the slots of external names, then the variables.
    pub const DATA_OFFSET: u64 = 0x200_0000;
    /// The first address of the stack.
    pub const STACK_START: u64 = 0x1_0000_0000;
    /// The bytes of the stack; it grows down from its end.
    pub const STACK_BYTES: u64 = 0x20_0000;
}
