//! The processor: its registers, and the ways in which an instruction leaves it.

ghost use Rattle.std.specs.Prelude.{◌≡◌, ◌<◌};
ghost use Rattle.pw_mem.specs.Memory.{Mem};
ghost use Rattle.pw_hart.specs.State.{get, set, writes};
ghost use Rattle.pw_hart.specs.Bits.{bits64};
ghost use Rattle.pw_hart.specs.Exec.{jumps, lands, branches_if, exec};
ghost use Rattle.pw_hart.specs.Integer.{add};
ghost use Rattle.pw_hart.specs.Harts.{registers};
ghost use Rattle.pw_hart.specs.Steps.Does.{Does};

use crate::ends::End;
use crate::integer::add;
use crate::word::sign_extended;
use pw_isa::Inst;
use pw_isa::registers::{RA, ZERO};

/// A processor, as RISC-V calls it a hart: the registers, the program counter, and the counted steps that are left.
/// Register 0 reads as 0 whatever stands in its place, and that stays as it is.
#[derive(Clone, Copy, PartialEq, Eq, Debug)]
pub struct Hart {
    /// The registers x0 to x31.
    pub x: [u64; 32],
    /// The address of the instruction that is next.
    pub pc: u64,
    /// How many counted steps are left.
    pub steps: u64,
}

impl Hart {
    /// What a register reads as.
    pub(crate) fn get(&self, r: u8) -> u64
        requires { r < 32 }
        ensures { result ≡ get (registers self.now) r }
    {
        if r == ZERO { 0 } else { self.x[usize::from(r)] }
    }

    /// Writes a register; a write to x0 is dropped.
    fn put(&mut self, rd: u8, value: u64)
        requires { rd < 32 }
        ensures written { registers self.new ≡ set (registers self.old) rd value }
        ensures others { (self.new.pc ≡ self.old.pc) × (self.new.steps ≡ self.old.steps) }
    {
        if rd != ZERO {
            self.x[usize::from(rd)] = value;
        }
    }

    /// Writes a register, and goes on after the instruction.
    pub(crate) fn advance(&mut self, rd: u8, value: u64)
        requires { rd < 32 }
        ensures { (mem : Mem) → Does (writes rd value) self.old mem None self.new mem }
    {
        self.put(rd, value);
        self.pc = self.pc.wrapping_add(4);
    }

    /// Writes a register, and the run goes on.
    pub(crate) fn write(&mut self, rd: u8, value: u64) -> Option<End>
        requires { rd < 32 }
        ensures { (mem : Mem) → Does (writes rd value) self.old mem result self.new mem }
    {
        self.advance(rd, value);
        None
    }

    /// Goes on at a target, with these steps left and a value written to a register.
    fn land(&mut self, steps: u64, target: u64, rd: u8, value: u64) -> Option<End>
        requires { rd < 32 }
        ensures { (mem : Mem) → Does (lands steps target (set (registers self.old) rd value)) self.old mem result self.new mem }
    {
        self.put(rd, value);
        self.steps = steps;
        self.pc = target;
        None
    }

    /// Goes on at a target, with a value written to a register; a counted jump takes a step first, and ends the run
    /// where none is left. A misaligned target traps.
    pub(crate) fn jump(&mut self, counted: bool, target: u64, rd: u8, value: u64) -> Option<End>
        requires { rd < 32 }
        ensures { (mem : Mem) → Does (jumps counted target (set (registers self.old) rd value)) self.old mem result self.new mem }
    {
        if target % 4 != 0 {
            return Some(End::Trap {
                cause: 0,
                pc: self.pc,
                value: target,
            });
        }
        if counted {
            if self.steps == 0 {
                return Some(End::Spent);
            }
            return self.land(self.steps - 1, target, rd, value);
        }
        self.land(self.steps, target, rd, value)
    }

    /// The address that is so far from the instruction.
    pub(crate) fn target(&self, imm: i32) -> u64
        ensures { result ≡ add self.now.pc (bits64 imm) }
    {
        add(self.pc, sign_extended(imm))
    }

    /// The address that a load, a store or a jump means by a register and an immediate.
    pub(crate) fn effective(&self, rs1: u8, imm: i32) -> u64
        requires { rs1 < 32 }
        ensures { result ≡ add (get (registers self.now) rs1) (bits64 imm) }
    {
        add(self.get(rs1), sign_extended(imm))
    }

    /// Takes a branch, or goes on after it.
    pub(crate) fn branch(&mut self, taken: bool, imm: i32) -> Option<End>
        ensures { (mem : Mem) → Does (branches_if taken imm) self.old mem result self.new mem }
    {
        if taken {
            let target = self.target(imm);
            return self.jump(target <= self.pc, target, ZERO, 0);
        }
        self.write(ZERO, 0)
    }

    /// Jumps, and writes the address after it to a register.
    pub(crate) fn jal(&mut self, rd: u8, imm: i32) -> Option<End>
        requires { rd < 32 }
        ensures { (mem : Mem) → Does (exec (Inst.Jal rd imm)) self.old mem result self.new mem }
    {
        let target = self.target(imm);
        self.jump(
            rd == RA || target <= self.pc,
            target,
            rd,
            self.pc.wrapping_add(4),
        )
    }

    /// Jumps to an address by a register, which is read first, and writes the address after it to a register.
    pub(crate) fn jalr(&mut self, rd: u8, rs1: u8, imm: i32) -> Option<End>
        requires rd { rd < 32 }
        requires rs1 { rs1 < 32 }
        ensures { (mem : Mem) → Does (exec (Inst.Jalr rd rs1 imm)) self.old mem result self.new mem }
    {
        let address = self.effective(rs1, imm);
        let target = address - address % 2;
        self.jump(
            rd == RA || rd != ZERO && target <= self.pc,
            target,
            rd,
            self.pc.wrapping_add(4),
        )
    }
}
