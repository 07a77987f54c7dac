//! The instructions of RV64I and M, one variant for each name of the manual's listing.

/// An instruction of RV64I or M with its operands (RISC-V unprivileged manual, "RV32/64G
/// Instruction Set Listings"), in the order of that listing.
///
/// `rd`, `rs1` and `rs2` are register numbers, below 32. `imm` is the immediate as the number that
/// it stands for: from -2048 to 2047 in loads, stores, `Jalr` and arithmetic, even and from -4096 to
/// 4094 in branches, even and from -2^20 to 2^20 - 2 in `Jal`, and from -2^19 to 2^19 - 1 in `Lui`
/// and `Auipc`, which stand for `imm * 4096`. `count` is a number of bits to shift by, below 64, and
/// below 32 in the forms on words.
///
/// Instructions are compared by their instruction words or by patterns: over so many variants, equality and text as
/// calls would take as much proof as all else here.
#[derive(Clone, Copy)]
pub enum Inst {
    /// Load upper immediate.
    Lui { rd: u8, imm: i32 },
    /// Add upper immediate to pc.
    Auipc { rd: u8, imm: i32 },
    /// Jump and link.
    Jal { rd: u8, imm: i32 },
    /// Jump and link register.
    Jalr { rd: u8, rs1: u8, imm: i32 },
    /// Branch if equal.
    Beq { rs1: u8, rs2: u8, imm: i32 },
    /// Branch if not equal.
    Bne { rs1: u8, rs2: u8, imm: i32 },
    /// Branch if less than, signed.
    Blt { rs1: u8, rs2: u8, imm: i32 },
    /// Branch if greater or equal, signed.
    Bge { rs1: u8, rs2: u8, imm: i32 },
    /// Branch if less than, unsigned.
    Bltu { rs1: u8, rs2: u8, imm: i32 },
    /// Branch if greater or equal, unsigned.
    Bgeu { rs1: u8, rs2: u8, imm: i32 },
    /// Load byte, sign-extended.
    Lb { rd: u8, rs1: u8, imm: i32 },
    /// Load halfword, sign-extended.
    Lh { rd: u8, rs1: u8, imm: i32 },
    /// Load word, sign-extended.
    Lw { rd: u8, rs1: u8, imm: i32 },
    /// Load byte, zero-extended.
    Lbu { rd: u8, rs1: u8, imm: i32 },
    /// Load halfword, zero-extended.
    Lhu { rd: u8, rs1: u8, imm: i32 },
    /// Store byte.
    Sb { rs1: u8, rs2: u8, imm: i32 },
    /// Store halfword.
    Sh { rs1: u8, rs2: u8, imm: i32 },
    /// Store word.
    Sw { rs1: u8, rs2: u8, imm: i32 },
    /// Add immediate.
    Addi { rd: u8, rs1: u8, imm: i32 },
    /// Set if less than immediate, signed.
    Slti { rd: u8, rs1: u8, imm: i32 },
    /// Set if less than immediate, unsigned.
    Sltiu { rd: u8, rs1: u8, imm: i32 },
    /// Exclusive or immediate.
    Xori { rd: u8, rs1: u8, imm: i32 },
    /// Or immediate.
    Ori { rd: u8, rs1: u8, imm: i32 },
    /// And immediate.
    Andi { rd: u8, rs1: u8, imm: i32 },
    /// Add.
    Add { rd: u8, rs1: u8, rs2: u8 },
    /// Subtract.
    Sub { rd: u8, rs1: u8, rs2: u8 },
    /// Shift left logical.
    Sll { rd: u8, rs1: u8, rs2: u8 },
    /// Set if less than, signed.
    Slt { rd: u8, rs1: u8, rs2: u8 },
    /// Set if less than, unsigned.
    Sltu { rd: u8, rs1: u8, rs2: u8 },
    /// Exclusive or.
    Xor { rd: u8, rs1: u8, rs2: u8 },
    /// Shift right logical.
    Srl { rd: u8, rs1: u8, rs2: u8 },
    /// Shift right arithmetic.
    Sra { rd: u8, rs1: u8, rs2: u8 },
    /// Or.
    Or { rd: u8, rs1: u8, rs2: u8 },
    /// And.
    And { rd: u8, rs1: u8, rs2: u8 },
    /// Order device and memory accesses.
    Fence,
    /// Environment call.
    Ecall,
    /// Environment break.
    Ebreak,
    /// Load word, zero-extended.
    Lwu { rd: u8, rs1: u8, imm: i32 },
    /// Load doubleword.
    Ld { rd: u8, rs1: u8, imm: i32 },
    /// Store doubleword.
    Sd { rs1: u8, rs2: u8, imm: i32 },
    /// Shift left logical by a count.
    Slli { rd: u8, rs1: u8, count: u8 },
    /// Shift right logical by a count.
    Srli { rd: u8, rs1: u8, count: u8 },
    /// Shift right arithmetic by a count.
    Srai { rd: u8, rs1: u8, count: u8 },
    /// Add immediate, on words.
    Addiw { rd: u8, rs1: u8, imm: i32 },
    /// Shift left logical by a count, on words.
    Slliw { rd: u8, rs1: u8, count: u8 },
    /// Shift right logical by a count, on words.
    Srliw { rd: u8, rs1: u8, count: u8 },
    /// Shift right arithmetic by a count, on words.
    Sraiw { rd: u8, rs1: u8, count: u8 },
    /// Add, on words.
    Addw { rd: u8, rs1: u8, rs2: u8 },
    /// Subtract, on words.
    Subw { rd: u8, rs1: u8, rs2: u8 },
    /// Shift left logical, on words.
    Sllw { rd: u8, rs1: u8, rs2: u8 },
    /// Shift right logical, on words.
    Srlw { rd: u8, rs1: u8, rs2: u8 },
    /// Shift right arithmetic, on words.
    Sraw { rd: u8, rs1: u8, rs2: u8 },
    /// Multiply, low half.
    Mul { rd: u8, rs1: u8, rs2: u8 },
    /// Multiply, high half, signed by signed.
    Mulh { rd: u8, rs1: u8, rs2: u8 },
    /// Multiply, high half, signed by unsigned.
    Mulhsu { rd: u8, rs1: u8, rs2: u8 },
    /// Multiply, high half, unsigned by unsigned.
    Mulhu { rd: u8, rs1: u8, rs2: u8 },
    /// Divide, signed.
    Div { rd: u8, rs1: u8, rs2: u8 },
    /// Divide, unsigned.
    Divu { rd: u8, rs1: u8, rs2: u8 },
    /// Remainder, signed.
    Rem { rd: u8, rs1: u8, rs2: u8 },
    /// Remainder, unsigned.
    Remu { rd: u8, rs1: u8, rs2: u8 },
    /// Multiply, on words.
    Mulw { rd: u8, rs1: u8, rs2: u8 },
    /// Divide, signed, on words.
    Divw { rd: u8, rs1: u8, rs2: u8 },
    /// Divide, unsigned, on words.
    Divuw { rd: u8, rs1: u8, rs2: u8 },
    /// Remainder, signed, on words.
    Remw { rd: u8, rs1: u8, rs2: u8 },
    /// Remainder, unsigned, on words.
    Remuw { rd: u8, rs1: u8, rs2: u8 },
}
