//! Loads and stores.

ghost use Rattle.std.specs.Prelude.{◌≡◌, ◌<◌, IsTrue};
ghost use Rattle.pw_mem.specs.Memory.{is_width};
ghost use Rattle.pw_mem.specs.States.{KeepsFetches};
ghost use Rattle.pw_hart.specs.Steps.Access.{width_of, extension_of};
ghost use Rattle.pw_hart.specs.Exec.{loads_from, stores_to};
ghost use Rattle.pw_hart.specs.Steps.Does.{Does};

use crate::ends::End;
use crate::hart::Hart;
use crate::word::{low_word, sign_extend_byte, sign_extend_half, sign_extend_word};
use pw_isa::registers::ZERO;
use pw_mem::{Access, Memory};

/// What is loaded: a number of 1, 2, 4 or 8 bytes, sign-extended or not.
#[derive(Clone, Copy)]
pub(crate) enum Load {
    Byte,
    Half,
    Word,
    Double,
    UnsignedByte,
    UnsignedHalf,
    UnsignedWord,
}

impl Load {
    /// How many bytes are loaded.
    fn width(self) -> u8
        ensures width { result ≡ width_of self }
        ensures is_width { IsTrue (is_width result) }
    {
        match self {
            Load::Byte | Load::UnsignedByte => 1,
            Load::Half | Load::UnsignedHalf => 2,
            Load::Word | Load::UnsignedWord => 4,
            Load::Double => 8,
        }
    }

    /// The 64 bits that the register gets.
    fn extended(self, value: u64) -> u64
        ensures { result ≡ extension_of self value }
    {
        match self {
            Load::Byte => sign_extend_byte(value),
            Load::Half => sign_extend_half(value),
            Load::Word => sign_extend_word(value),
            Load::Double => value,
            Load::UnsignedByte => value % (1 << 8),
            Load::UnsignedHalf => value % (1 << 16),
            Load::UnsignedWord => u64::from(low_word(value)),
        }
    }
}

impl Hart {
    /// Loads a number into a register.
    pub(crate) fn load<M: Memory>(
        &mut self,
        mem: &M,
        load: Load,
        rd: u8,
        rs1: u8,
        imm: i32,
    ) -> Option<End>
        requires rd { rd < 32 }
        requires rs1 { rs1 < 32 }
        ensures { Does (loads_from (extension_of load) (width_of load) rd rs1 imm) self.old (M.state mem.now).mem result self.new (M.state mem.now).mem }
    {
        let at = self.effective(rs1, imm);
        match mem.load(at, load.width()) {
            Ok(value) => self.write(rd, load.extended(value)),
            Err(Access::Misaligned) => Some(End::Trap {
                cause: 4,
                pc: self.pc,
                value: at,
            }),
            Err(_) => Some(End::Trap {
                cause: 5,
                pc: self.pc,
                value: at,
            }),
        }
    }

    /// Stores the lowest bytes of a register.
    pub(crate) fn store<M: Memory>(
        &mut self,
        mem: &mut M,
        width: u8,
        rs1: u8,
        rs2: u8,
        imm: i32,
    ) -> Option<End>
        requires width { IsTrue (is_width width) }
        requires rs1 { rs1 < 32 }
        requires rs2 { rs2 < 32 }
        ensures does { Does (stores_to width rs1 rs2 imm) self.old (M.state mem.old).mem result self.new (M.state mem.new).mem }
        ensures no_fetch { KeepsFetches (M.state mem.old) (M.state mem.new) }
    {
        let at = self.effective(rs1, imm);
        match mem.store(at, width, self.get(rs2)) {
            Ok(()) => self.write(ZERO, 0),
            Err(Access::Misaligned) => Some(End::Trap {
                cause: 6,
                pc: self.pc,
                value: at,
            }),
            Err(_) => Some(End::Trap {
                cause: 7,
                pc: self.pc,
                value: at,
            }),
        }
    }
}
