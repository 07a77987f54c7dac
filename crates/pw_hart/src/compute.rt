//! The computational instructions and the branches: what the operation or the condition of an instruction does to a hart.

ghost use Rattle.std.specs.Prelude.{◌<◌};
ghost use Rattle.pw_mem.specs.Memory.{Mem};
ghost use Rattle.pw_hart.specs.Exec.{by_register, by_immediate, by_count, branches_on, exec};
ghost use Rattle.pw_hart.specs.Steps.Does.{Does};
ghost use Rattle.pw_hart.specs.Steps.Operations.{result_of, holds_of};

use crate::ends::End;
use crate::hart::Hart;
use crate::integer::add;
use crate::operation::{Condition, Operation};
use crate::word::sign_extended;
use pw_isa::Inst;

impl Hart {
    /// Writes what an operation gives for two registers.
    pub(crate) fn by_register(
        &mut self,
        operation: Operation,
        rd: u8,
        rs1: u8,
        rs2: u8,
    ) -> Option<End>
        requires rd { rd < 32 }
        requires rs1 { rs1 < 32 }
        requires rs2 { rs2 < 32 }
        ensures { (mem : Mem) → Does (by_register (result_of operation) rd rs1 rs2) self.old mem result self.new mem }
    {
        let value = operation.result(self.get(rs1), self.get(rs2));
        self.write(rd, value)
    }

    /// Writes what an operation gives for a register and the sign-extended immediate.
    pub(crate) fn by_immediate(
        &mut self,
        operation: Operation,
        rd: u8,
        rs1: u8,
        imm: i32,
    ) -> Option<End>
        requires rd { rd < 32 }
        requires rs1 { rs1 < 32 }
        ensures { (mem : Mem) → Does (by_immediate (result_of operation) rd rs1 imm) self.old mem result self.new mem }
    {
        let value = operation.result(self.get(rs1), sign_extended(imm));
        self.write(rd, value)
    }

    /// Writes what an operation gives for a register and a count of places.
    pub(crate) fn by_count(
        &mut self,
        operation: Operation,
        rd: u8,
        rs1: u8,
        count: u8,
    ) -> Option<End>
        requires rd { rd < 32 }
        requires rs1 { rs1 < 32 }
        ensures { (mem : Mem) → Does (by_count (result_of operation) rd rs1 count) self.old mem result self.new mem }
    {
        let value = operation.result(self.get(rs1), u64::from(count));
        self.write(rd, value)
    }

    /// Takes a branch where a condition of two registers holds, or goes on after it.
    pub(crate) fn branch_on(
        &mut self,
        condition: Condition,
        rs1: u8,
        rs2: u8,
        imm: i32,
    ) -> Option<End>
        requires rs1 { rs1 < 32 }
        requires rs2 { rs2 < 32 }
        ensures { (mem : Mem) → Does (branches_on (holds_of condition) rs1 rs2 imm) self.old mem result self.new mem }
    {
        let taken = condition.holds(self.get(rs1), self.get(rs2));
        self.branch(taken, imm)
    }

    /// Writes an upper immediate.
    pub(crate) fn lui(&mut self, rd: u8, imm: i32) -> Option<End>
        requires { rd < 32 }
        ensures { (mem : Mem) → Does (exec (Inst.Lui rd imm)) self.old mem result self.new mem }
    {
        self.write(rd, sign_extended(imm).wrapping_mul(1 << 12))
    }

    /// Writes the address that is an upper immediate from the instruction.
    pub(crate) fn auipc(&mut self, rd: u8, imm: i32) -> Option<End>
        requires { rd < 32 }
        ensures { (mem : Mem) → Does (exec (Inst.Auipc rd imm)) self.old mem result self.new mem }
    {
        let upper = sign_extended(imm).wrapping_mul(1 << 12);
        self.write(rd, add(self.pc, upper))
    }
}
