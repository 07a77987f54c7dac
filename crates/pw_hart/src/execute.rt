//! What each instruction does, but for the environment call.

ghost use Rattle.std.specs.Prelude.{◌≢◌};
ghost use Rattle.pw_isa.specs.Encoding.{IsEncodable};
ghost use Rattle.pw_mem.specs.States.{KeepsFetches};
ghost use Rattle.pw_hart.specs.Exec.{exec};
ghost use Rattle.pw_hart.specs.Steps.Does.{Does};

use crate::access::Load;
use crate::ends::End;
use crate::hart::Hart;
use crate::operation::{Condition, Operation};
use pw_isa::Inst;
use pw_isa::registers::ZERO;
use pw_mem::Memory;

impl Hart {
    /// Carries out an instruction that is no environment call, on this memory.
    pub(crate) fn execute<M: Memory>(&mut self, mem: &mut M, inst: Inst) -> Option<End>
        requires encodable { IsEncodable inst }
        requires no_call { inst ≢ Inst.Ecall }
        ensures does { Does (exec inst) self.old (M.state mem.old).mem result self.new (M.state mem.new).mem }
        ensures no_fetch { KeepsFetches (M.state mem.old) (M.state mem.new) }
    {
        match inst {
            Inst::Lui { rd, imm } => self.lui(rd, imm),
            Inst::Auipc { rd, imm } => self.auipc(rd, imm),
            Inst::Jal { rd, imm } => self.jal(rd, imm),
            Inst::Jalr { rd, rs1, imm } => self.jalr(rd, rs1, imm),
            Inst::Beq { rs1, rs2, imm } => self.branch_on(Condition::Eq, rs1, rs2, imm),
            Inst::Bne { rs1, rs2, imm } => self.branch_on(Condition::Ne, rs1, rs2, imm),
            Inst::Blt { rs1, rs2, imm } => self.branch_on(Condition::Lt, rs1, rs2, imm),
            Inst::Bge { rs1, rs2, imm } => self.branch_on(Condition::Ge, rs1, rs2, imm),
            Inst::Bltu { rs1, rs2, imm } => self.branch_on(Condition::Ltu, rs1, rs2, imm),
            Inst::Bgeu { rs1, rs2, imm } => self.branch_on(Condition::Geu, rs1, rs2, imm),
            Inst::Lb { rd, rs1, imm } => self.load(mem, Load::Byte, rd, rs1, imm),
            Inst::Lh { rd, rs1, imm } => self.load(mem, Load::Half, rd, rs1, imm),
            Inst::Lw { rd, rs1, imm } => self.load(mem, Load::Word, rd, rs1, imm),
            Inst::Lbu { rd, rs1, imm } => self.load(mem, Load::UnsignedByte, rd, rs1, imm),
            Inst::Lhu { rd, rs1, imm } => self.load(mem, Load::UnsignedHalf, rd, rs1, imm),
            Inst::Sb { rs1, rs2, imm } => self.store(mem, 1, rs1, rs2, imm),
            Inst::Sh { rs1, rs2, imm } => self.store(mem, 2, rs1, rs2, imm),
            Inst::Sw { rs1, rs2, imm } => self.store(mem, 4, rs1, rs2, imm),
            Inst::Addi { rd, rs1, imm } => self.by_immediate(Operation::Add, rd, rs1, imm),
            Inst::Slti { rd, rs1, imm } => self.by_immediate(Operation::Slt, rd, rs1, imm),
            Inst::Sltiu { rd, rs1, imm } => self.by_immediate(Operation::Sltu, rd, rs1, imm),
            Inst::Xori { rd, rs1, imm } => self.by_immediate(Operation::Xor, rd, rs1, imm),
            Inst::Ori { rd, rs1, imm } => self.by_immediate(Operation::Or, rd, rs1, imm),
            Inst::Andi { rd, rs1, imm } => self.by_immediate(Operation::And, rd, rs1, imm),
            Inst::Add { rd, rs1, rs2 } => self.by_register(Operation::Add, rd, rs1, rs2),
            Inst::Sub { rd, rs1, rs2 } => self.by_register(Operation::Sub, rd, rs1, rs2),
            Inst::Sll { rd, rs1, rs2 } => self.by_register(Operation::Sll, rd, rs1, rs2),
            Inst::Slt { rd, rs1, rs2 } => self.by_register(Operation::Slt, rd, rs1, rs2),
            Inst::Sltu { rd, rs1, rs2 } => self.by_register(Operation::Sltu, rd, rs1, rs2),
            Inst::Xor { rd, rs1, rs2 } => self.by_register(Operation::Xor, rd, rs1, rs2),
            Inst::Srl { rd, rs1, rs2 } => self.by_register(Operation::Srl, rd, rs1, rs2),
            Inst::Sra { rd, rs1, rs2 } => self.by_register(Operation::Sra, rd, rs1, rs2),
            Inst::Or { rd, rs1, rs2 } => self.by_register(Operation::Or, rd, rs1, rs2),
            Inst::And { rd, rs1, rs2 } => self.by_register(Operation::And, rd, rs1, rs2),
            Inst::Fence => self.write(ZERO, 0),
            Inst::Ecall => unreachable!(),
            Inst::Ebreak => Some(End::Trap {
                cause: 3,
                pc: self.pc,
                value: 0,
            }),
            Inst::Lwu { rd, rs1, imm } => self.load(mem, Load::UnsignedWord, rd, rs1, imm),
            Inst::Ld { rd, rs1, imm } => self.load(mem, Load::Double, rd, rs1, imm),
            Inst::Sd { rs1, rs2, imm } => self.store(mem, 8, rs1, rs2, imm),
            Inst::Slli { rd, rs1, count } => self.by_count(Operation::Sll, rd, rs1, count),
            Inst::Srli { rd, rs1, count } => self.by_count(Operation::Srl, rd, rs1, count),
            Inst::Srai { rd, rs1, count } => self.by_count(Operation::Sra, rd, rs1, count),
            Inst::Addiw { rd, rs1, imm } => self.by_immediate(Operation::Addw, rd, rs1, imm),
            Inst::Slliw { rd, rs1, count } => self.by_count(Operation::Sllw, rd, rs1, count),
            Inst::Srliw { rd, rs1, count } => self.by_count(Operation::Srlw, rd, rs1, count),
            Inst::Sraiw { rd, rs1, count } => self.by_count(Operation::Sraw, rd, rs1, count),
            Inst::Addw { rd, rs1, rs2 } => self.by_register(Operation::Addw, rd, rs1, rs2),
            Inst::Subw { rd, rs1, rs2 } => self.by_register(Operation::Subw, rd, rs1, rs2),
            Inst::Sllw { rd, rs1, rs2 } => self.by_register(Operation::Sllw, rd, rs1, rs2),
            Inst::Srlw { rd, rs1, rs2 } => self.by_register(Operation::Srlw, rd, rs1, rs2),
            Inst::Sraw { rd, rs1, rs2 } => self.by_register(Operation::Sraw, rd, rs1, rs2),
            Inst::Mul { rd, rs1, rs2 } => self.by_register(Operation::Mul, rd, rs1, rs2),
            Inst::Mulh { rd, rs1, rs2 } => self.by_register(Operation::Mulh, rd, rs1, rs2),
            Inst::Mulhsu { rd, rs1, rs2 } => self.by_register(Operation::Mulhsu, rd, rs1, rs2),
            Inst::Mulhu { rd, rs1, rs2 } => self.by_register(Operation::Mulhu, rd, rs1, rs2),
            Inst::Div { rd, rs1, rs2 } => self.by_register(Operation::Div, rd, rs1, rs2),
            Inst::Divu { rd, rs1, rs2 } => self.by_register(Operation::Divu, rd, rs1, rs2),
            Inst::Rem { rd, rs1, rs2 } => self.by_register(Operation::Rem, rd, rs1, rs2),
            Inst::Remu { rd, rs1, rs2 } => self.by_register(Operation::Remu, rd, rs1, rs2),
            Inst::Mulw { rd, rs1, rs2 } => self.by_register(Operation::Mulw, rd, rs1, rs2),
            Inst::Divw { rd, rs1, rs2 } => self.by_register(Operation::Divw, rd, rs1, rs2),
            Inst::Divuw { rd, rs1, rs2 } => self.by_register(Operation::Divuw, rd, rs1, rs2),
            Inst::Remw { rd, rs1, rs2 } => self.by_register(Operation::Remw, rd, rs1, rs2),
            Inst::Remuw { rd, rs1, rs2 } => self.by_register(Operation::Remuw, rd, rs1, rs2),
        }
    }
}
