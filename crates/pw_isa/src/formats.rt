//! Writing an instruction word: one function for each format, with the numbers that a row fixes and the operands.
//!
//! The fields of a format do not overlap, so the sum of the shifted fields is the instruction word.

ghost use Rattle.std.specs.Prelude.{◌≡◌, ◌<◌, ◌^◌};
ghost use Rattle.pw_isa.specs.Formats.{instruction_word, Fits, R, I, Shift, S, B, U, J};

use crate::fields::bits;

/// The instruction word of the R format: `funct7`, `rs2`, `rs1`, `funct3`, `rd` and the opcode from the top (unprivileged manual,
/// "Base Instruction Formats").
pub fn r_type(opcode: u8, funct3: u8, funct7: u8, rd: u8, rs1: u8, rs2: u8) -> u32
    requires codes { (opcode < 2 ^ 7) × (funct3 < 2 ^ 3) × (funct7 < 2 ^ 7) }
    requires operands { Fits (R opcode funct3 funct7 rd rs1 rs2) }
    ensures { result ≡ instruction_word (R opcode funct3 funct7 rd rs1 rs2) }
{
    let high = (u32::from(funct7) << 25) + (u32::from(rs2) << 20) + (u32::from(rs1) << 15);
    high + (u32::from(funct3) << 12) + (u32::from(rd) << 7) + u32::from(opcode)
}

/// The instruction word of the I format: twelve bits of the immediate above `rs1`, `funct3`, `rd` and the opcode.
pub fn i_type(opcode: u8, funct3: u8, rd: u8, rs1: u8, imm: i32) -> u32
    requires codes { (opcode < 2 ^ 7) × (funct3 < 2 ^ 3) }
    requires operands { Fits (I opcode funct3 rd rs1 imm) }
    ensures { result ≡ instruction_word (I opcode funct3 rd rs1 imm) }
{
    let high = ((imm.cast_unsigned() % (1 << 12)) << 20) + (u32::from(rs1) << 15);
    high + (u32::from(funct3) << 12) + (u32::from(rd) << 7) + u32::from(opcode)
}

/// The instruction word of a shift by a count of six bits: the I format with `funct6` above the count (RV64I).
pub fn shift_type(opcode: u8, funct3: u8, funct6: u8, rd: u8, rs1: u8, count: u8) -> u32
    requires codes { (opcode < 2 ^ 7) × (funct3 < 2 ^ 3) × (funct6 < 2 ^ 6) }
    requires operands { Fits (Shift opcode funct3 funct6 rd rs1 count) }
    ensures { result ≡ instruction_word (Shift opcode funct3 funct6 rd rs1 count) }
{
    let high = (u32::from(funct6) << 26) + (u32::from(count) << 20) + (u32::from(rs1) << 15);
    high + (u32::from(funct3) << 12) + (u32::from(rd) << 7) + u32::from(opcode)
}

/// The instruction word of the S format: the immediate's upper seven bits stand in the place of `funct7`, its lower five in that of
/// `rd`.
pub fn s_type(opcode: u8, funct3: u8, rs1: u8, rs2: u8, imm: i32) -> u32
    requires codes { (opcode < 2 ^ 7) × (funct3 < 2 ^ 3) }
    requires operands { Fits (S opcode funct3 rs1 rs2 imm) }
    ensures { result ≡ instruction_word (S opcode funct3 rs1 rs2 imm) }
{
    let imm = imm.cast_unsigned() % (1 << 12);
    r_type(
        opcode,
        funct3,
        bits(imm, 11, 5) as u8,
        bits(imm, 4, 0) as u8,
        rs1,
        rs2,
    )
}

/// The instruction word of the B format: the S format with a distance in units of two bytes, its bit 11 lowest and its bit 12
/// highest.
pub fn b_type(opcode: u8, funct3: u8, rs1: u8, rs2: u8, imm: i32) -> u32
    requires codes { (opcode < 2 ^ 7) × (funct3 < 2 ^ 3) }
    requires operands { Fits (B opcode funct3 rs1 rs2 imm) }
    ensures { result ≡ instruction_word (B opcode funct3 rs1 rs2 imm) }
{
    let imm = imm.cast_unsigned() % (1 << 13);
    let high = (bits(imm, 12, 12) << 6) + bits(imm, 10, 5);
    let low = (bits(imm, 4, 1) << 1) + bits(imm, 11, 11);
    r_type(opcode, funct3, high as u8, low as u8, rs1, rs2)
}

/// The instruction word of the U format: the immediate's twenty bits above `rd` and the opcode.
pub fn u_type(opcode: u8, rd: u8, imm: i32) -> u32
    requires codes { opcode < 2 ^ 7 }
    requires operands { Fits (U opcode rd imm) }
    ensures { result ≡ instruction_word (U opcode rd imm) }
{
    ((imm.cast_unsigned() % (1 << 20)) << 12) + (u32::from(rd) << 7) + u32::from(opcode)
}

/// The instruction word of the J format: a distance in units of two bytes, its bits in the order 20, 10 to 1, 11, 19 to 12.
pub fn j_type(opcode: u8, rd: u8, imm: i32) -> u32
    requires codes { opcode < 2 ^ 7 }
    requires operands { Fits (J opcode rd imm) }
    ensures { result ≡ instruction_word (J opcode rd imm) }
{
    let imm = imm.cast_unsigned() % (1 << 21);
    let high = (bits(imm, 20, 20) << 31) + (bits(imm, 10, 1) << 21) + (bits(imm, 11, 11) << 20);
    high + (bits(imm, 19, 12) << 12) + (u32::from(rd) << 7) + u32::from(opcode)
}
