//! The instruction words that other tools make of every instruction, with operands at the ends of their ranges, and
//! words of no instruction.

use pw_isa::laws::encode_decoded;
use pw_isa::{Inst, decode};
use std::process::Abort;

/// The name of an instruction, its registers rd, rs1 and rs2, and its immediate or count; 0 where it has none.
fn parts(inst: Inst) -> (&'static str, [u8; 3], i32) {
    match inst {
        Inst::Lui { rd, imm } => ("lui", [rd, 0, 0], imm),
        Inst::Auipc { rd, imm } => ("auipc", [rd, 0, 0], imm),
        Inst::Jal { rd, imm } => ("jal", [rd, 0, 0], imm),
        Inst::Jalr { rd, rs1, imm } => ("jalr", [rd, rs1, 0], imm),
        Inst::Beq { rs1, rs2, imm } => ("beq", [0, rs1, rs2], imm),
        Inst::Bne { rs1, rs2, imm } => ("bne", [0, rs1, rs2], imm),
        Inst::Blt { rs1, rs2, imm } => ("blt", [0, rs1, rs2], imm),
        Inst::Bge { rs1, rs2, imm } => ("bge", [0, rs1, rs2], imm),
        Inst::Bltu { rs1, rs2, imm } => ("bltu", [0, rs1, rs2], imm),
        Inst::Bgeu { rs1, rs2, imm } => ("bgeu", [0, rs1, rs2], imm),
        Inst::Lb { rd, rs1, imm } => ("lb", [rd, rs1, 0], imm),
        Inst::Lh { rd, rs1, imm } => ("lh", [rd, rs1, 0], imm),
        Inst::Lw { rd, rs1, imm } => ("lw", [rd, rs1, 0], imm),
        Inst::Lbu { rd, rs1, imm } => ("lbu", [rd, rs1, 0], imm),
        Inst::Lhu { rd, rs1, imm } => ("lhu", [rd, rs1, 0], imm),
        Inst::Sb { rs1, rs2, imm } => ("sb", [0, rs1, rs2], imm),
        Inst::Sh { rs1, rs2, imm } => ("sh", [0, rs1, rs2], imm),
        Inst::Sw { rs1, rs2, imm } => ("sw", [0, rs1, rs2], imm),
        Inst::Addi { rd, rs1, imm } => ("addi", [rd, rs1, 0], imm),
        Inst::Slti { rd, rs1, imm } => ("slti", [rd, rs1, 0], imm),
        Inst::Sltiu { rd, rs1, imm } => ("sltiu", [rd, rs1, 0], imm),
        Inst::Xori { rd, rs1, imm } => ("xori", [rd, rs1, 0], imm),
        Inst::Ori { rd, rs1, imm } => ("ori", [rd, rs1, 0], imm),
        Inst::Andi { rd, rs1, imm } => ("andi", [rd, rs1, 0], imm),
        Inst::Add { rd, rs1, rs2 } => ("add", [rd, rs1, rs2], 0),
        Inst::Sub { rd, rs1, rs2 } => ("sub", [rd, rs1, rs2], 0),
        Inst::Sll { rd, rs1, rs2 } => ("sll", [rd, rs1, rs2], 0),
        Inst::Slt { rd, rs1, rs2 } => ("slt", [rd, rs1, rs2], 0),
        Inst::Sltu { rd, rs1, rs2 } => ("sltu", [rd, rs1, rs2], 0),
        Inst::Xor { rd, rs1, rs2 } => ("xor", [rd, rs1, rs2], 0),
        Inst::Srl { rd, rs1, rs2 } => ("srl", [rd, rs1, rs2], 0),
        Inst::Sra { rd, rs1, rs2 } => ("sra", [rd, rs1, rs2], 0),
        Inst::Or { rd, rs1, rs2 } => ("or", [rd, rs1, rs2], 0),
        Inst::And { rd, rs1, rs2 } => ("and", [rd, rs1, rs2], 0),
        Inst::Fence => ("fence", [0, 0, 0], 0),
        Inst::Ecall => ("ecall", [0, 0, 0], 0),
        Inst::Ebreak => ("ebreak", [0, 0, 0], 0),
        Inst::Lwu { rd, rs1, imm } => ("lwu", [rd, rs1, 0], imm),
        Inst::Ld { rd, rs1, imm } => ("ld", [rd, rs1, 0], imm),
        Inst::Sd { rs1, rs2, imm } => ("sd", [0, rs1, rs2], imm),
        Inst::Slli { rd, rs1, count } => ("slli", [rd, rs1, 0], i32::from(count)),
        Inst::Srli { rd, rs1, count } => ("srli", [rd, rs1, 0], i32::from(count)),
        Inst::Srai { rd, rs1, count } => ("srai", [rd, rs1, 0], i32::from(count)),
        Inst::Addiw { rd, rs1, imm } => ("addiw", [rd, rs1, 0], imm),
        Inst::Slliw { rd, rs1, count } => ("slliw", [rd, rs1, 0], i32::from(count)),
        Inst::Srliw { rd, rs1, count } => ("srliw", [rd, rs1, 0], i32::from(count)),
        Inst::Sraiw { rd, rs1, count } => ("sraiw", [rd, rs1, 0], i32::from(count)),
        Inst::Addw { rd, rs1, rs2 } => ("addw", [rd, rs1, rs2], 0),
        Inst::Subw { rd, rs1, rs2 } => ("subw", [rd, rs1, rs2], 0),
        Inst::Sllw { rd, rs1, rs2 } => ("sllw", [rd, rs1, rs2], 0),
        Inst::Srlw { rd, rs1, rs2 } => ("srlw", [rd, rs1, rs2], 0),
        Inst::Sraw { rd, rs1, rs2 } => ("sraw", [rd, rs1, rs2], 0),
        Inst::Mul { rd, rs1, rs2 } => ("mul", [rd, rs1, rs2], 0),
        Inst::Mulh { rd, rs1, rs2 } => ("mulh", [rd, rs1, rs2], 0),
        Inst::Mulhsu { rd, rs1, rs2 } => ("mulhsu", [rd, rs1, rs2], 0),
        Inst::Mulhu { rd, rs1, rs2 } => ("mulhu", [rd, rs1, rs2], 0),
        Inst::Div { rd, rs1, rs2 } => ("div", [rd, rs1, rs2], 0),
        Inst::Divu { rd, rs1, rs2 } => ("divu", [rd, rs1, rs2], 0),
        Inst::Rem { rd, rs1, rs2 } => ("rem", [rd, rs1, rs2], 0),
        Inst::Remu { rd, rs1, rs2 } => ("remu", [rd, rs1, rs2], 0),
        Inst::Mulw { rd, rs1, rs2 } => ("mulw", [rd, rs1, rs2], 0),
        Inst::Divw { rd, rs1, rs2 } => ("divw", [rd, rs1, rs2], 0),
        Inst::Divuw { rd, rs1, rs2 } => ("divuw", [rd, rs1, rs2], 0),
        Inst::Remw { rd, rs1, rs2 } => ("remw", [rd, rs1, rs2], 0),
        Inst::Remuw { rd, rs1, rs2 } => ("remuw", [rd, rs1, rs2], 0),
    }
}

/// Each instruction word is read as the instruction with these parts, which is written as that instruction word.
fn expect(rt: &impl Abort, table: &[(u32, &str, [u8; 3], i32)]) {
    for (word, name, registers, number) in table {
        let read = decode(*word).map(parts);
        let want = Some((*name, *registers, *number));
        assert!(rt; read == want, "{word:#010x} is another instruction");
        assert_eq!(rt; encode_decoded(*word), Some(*word));
    }
}

#[test]
fn every_jump_branch_load_and_store_has_its_word(rt: HostRuntime) {
    let table = [
        (0x0000_1537, "lui", [10, 0, 0], 1),
        (0x8000_0097, "auipc", [1, 0, 0], -524288),
        (0x7fff_ffef, "jal", [31, 0, 0], 1048574),
        (0x7ff8_8467, "jalr", [8, 17, 0], 2047),
        (0x00b2_80e3, "beq", [0, 5, 11], 2048),
        (0xfe31_1fe3, "bne", [0, 2, 3], -2),
        (0x01df_4863, "blt", [0, 30, 29], 16),
        (0x8188_d063, "bge", [0, 17, 24], -4096),
        (0x7eb2_efe3, "bltu", [0, 5, 11], 4094),
        (0xfe31_7ae3, "bgeu", [0, 2, 3], -12),
        (0xffcf_0f83, "lb", [31, 30, 0], -4),
        (0x3e88_9403, "lh", [8, 17, 0], 1000),
        (0x8002_a503, "lw", [10, 5, 0], -2048),
        (0x7ff1_4083, "lbu", [1, 2, 0], 2047),
        (0x008f_5f83, "lhu", [31, 30, 0], 8),
        (0x7f88_8fa3, "sb", [0, 17, 24], 2047),
        (0x00b2_9423, "sh", [0, 5, 11], 8),
        (0xfe31_2c23, "sw", [0, 2, 3], -8),
    ];
    expect(&rt, &table);
}

#[test]
fn every_rv32i_computation_has_its_word(rt: HostRuntime) {
    let table = [
        (0x7fff_0f93, "addi", [31, 30, 0], 2047),
        (0x0088_a413, "slti", [8, 17, 0], 8),
        (0xffc2_b513, "sltiu", [10, 5, 0], -4),
        (0x3e81_4093, "xori", [1, 2, 0], 1000),
        (0x800f_6f93, "ori", [31, 30, 0], -2048),
        (0x7ff8_f413, "andi", [8, 17, 0], 2047),
        (0x00b2_8533, "add", [10, 5, 11], 0),
        (0x4031_00b3, "sub", [1, 2, 3], 0),
        (0x01df_1fb3, "sll", [31, 30, 29], 0),
        (0x0188_a433, "slt", [8, 17, 24], 0),
        (0x00b2_b533, "sltu", [10, 5, 11], 0),
        (0x0031_40b3, "xor", [1, 2, 3], 0),
        (0x01df_5fb3, "srl", [31, 30, 29], 0),
        (0x4188_d433, "sra", [8, 17, 24], 0),
        (0x00b2_e533, "or", [10, 5, 11], 0),
        (0x0031_70b3, "and", [1, 2, 3], 0),
    ];
    expect(&rt, &table);
}

#[test]
fn every_fence_call_and_rv64i_instruction_has_its_word(rt: HostRuntime) {
    let table = [
        (0x0ff0_000f, "fence", [0, 0, 0], 0),
        (0x0000_0073, "ecall", [0, 0, 0], 0),
        (0x0010_0073, "ebreak", [0, 0, 0], 0),
        (0x8001_6083, "lwu", [1, 2, 0], -2048),
        (0x7fff_3f83, "ld", [31, 30, 0], 2047),
        (0x7f88_bfa3, "sd", [0, 17, 24], 2047),
        (0x03f2_9513, "slli", [10, 5, 0], 63),
        (0x0201_5093, "srli", [1, 2, 0], 32),
        (0x401f_5f93, "srai", [31, 30, 0], 1),
        (0x7ff8_841b, "addiw", [8, 17, 0], 2047),
        (0x0112_951b, "slliw", [10, 5, 0], 17),
        (0x0011_509b, "srliw", [1, 2, 0], 1),
        (0x41ff_5f9b, "sraiw", [31, 30, 0], 31),
        (0x0188_843b, "addw", [8, 17, 24], 0),
        (0x40b2_853b, "subw", [10, 5, 11], 0),
        (0x0031_10bb, "sllw", [1, 2, 3], 0),
        (0x01df_5fbb, "srlw", [31, 30, 29], 0),
        (0x4188_d43b, "sraw", [8, 17, 24], 0),
    ];
    expect(&rt, &table);
}

#[test]
fn every_multiplication_and_division_has_its_word(rt: HostRuntime) {
    let table = [
        (0x02b2_8533, "mul", [10, 5, 11], 0),
        (0x0231_10b3, "mulh", [1, 2, 3], 0),
        (0x03df_2fb3, "mulhsu", [31, 30, 29], 0),
        (0x0388_b433, "mulhu", [8, 17, 24], 0),
        (0x02b2_c533, "div", [10, 5, 11], 0),
        (0x0231_50b3, "divu", [1, 2, 3], 0),
        (0x03df_6fb3, "rem", [31, 30, 29], 0),
        (0x0388_f433, "remu", [8, 17, 24], 0),
        (0x02b2_853b, "mulw", [10, 5, 11], 0),
        (0x0231_40bb, "divw", [1, 2, 3], 0),
        (0x03df_5fbb, "divuw", [31, 30, 29], 0),
        (0x0388_e43b, "remw", [8, 17, 24], 0),
        (0x02b2_f53b, "remuw", [10, 5, 11], 0),
    ];
    expect(&rt, &table);
}

#[test]
fn immediates_and_counts_reach_the_ends_of_their_ranges(rt: HostRuntime) {
    let table = [
        // I: the least, the greatest, and all bits set
        (0x8001_0093, "addi", [1, 2, 0], -2048),
        (0x7ff1_0093, "addi", [1, 2, 0], 2047),
        (0xfff1_0093, "addi", [1, 2, 0], -1),
        // S: the same
        (0x8011_3023, "sd", [0, 2, 1], -2048),
        (0x7e11_3fa3, "sd", [0, 2, 1], 2047),
        (0xfe11_3fa3, "sd", [0, 2, 1], -1),
        // B: the same, and bit 11, which stands lowest
        (0x8020_8063, "beq", [0, 1, 2], -4096),
        (0x7e20_8fe3, "beq", [0, 1, 2], 4094),
        (0xfe20_8fe3, "beq", [0, 1, 2], -2),
        (0x0020_80e3, "beq", [0, 1, 2], 2048),
        // J: the same, bit 11, and bit 12
        (0x8000_00ef, "jal", [1, 0, 0], -1048576),
        (0x7fff_f0ef, "jal", [1, 0, 0], 1048574),
        (0xffff_f0ef, "jal", [1, 0, 0], -2),
        (0x0010_00ef, "jal", [1, 0, 0], 2048),
        (0x0000_10ef, "jal", [1, 0, 0], 4096),
        // U: the same
        (0x8000_00b7, "lui", [1, 0, 0], -524288),
        (0x7fff_f0b7, "lui", [1, 0, 0], 524287),
        (0xffff_f0b7, "lui", [1, 0, 0], -1),
        // counts of 6 bits and of 5
        (0x03f1_1093, "slli", [1, 2, 0], 63),
        (0x4010_5013, "srai", [0, 0, 0], 1),
        (0x41ff_df9b, "sraiw", [31, 31, 0], 31),
        // rd, rs1 and rs2 in their places
        (0x02a2_8533, "mul", [10, 5, 10], 0),
    ];
    expect(&rt, &table);
}

#[test]
fn a_program_is_read_as_other_tools_wrote_it(rt: HostRuntime) {
    let table = [
        (0x3e80_0493, "addi", [9, 0, 0], 1000),
        (0x0100_0297, "auipc", [5, 0, 0], 4096),
        (0xffc2_b283, "ld", [5, 5, 0], -4),
        (0x0002_80e7, "jalr", [1, 5, 0], 0),
        (0x05d0_0893, "addi", [17, 0, 0], 93),
        (0x0000_0073, "ecall", [0, 0, 0], 0),
    ];
    expect(&rt, &table);
}

#[test]
fn words_of_no_row_are_no_instruction(rt: HostRuntime) {
    let table = [
        (0x00000000, "all zeros"),
        (0xffffffff, "all ones"),
        (0x00200073, "SYSTEM with another number"),
        (0x80105013, "a shift with bit 31"),
        (0x00000007, "no major opcode of the listing"),
        (0x00001067, "JALR with funct3 1"),
        (0x0000100f, "FENCE.I"),
        (0x00002063, "a branch with funct3 2"),
        (0x00007003, "a load with funct3 7"),
        (0x00004023, "a store with funct3 4"),
        (0x40001013, "SLLI with bit 30"),
        (0x0400003b, "no funct7 of OP-32"),
        (0x4000103b, "SLLW with bit 30"),
        (0x0200101b, "SLLIW with a count of 32"),
        (0x0000201b, "OP-IMM-32 with funct3 2"),
    ];
    for (word, why) in table {
        assert!(rt; decode(word).is_none(), "{why}");
        assert_eq!(rt; encode_decoded(word), None, "{why}");
    }
}

#[test]
fn fence_is_read_whatever_its_other_fields_are(rt: HostRuntime) {
    for word in [0x0000000f, 0x0ff0000f, 0x8330000f, 0xfff88f8f] {
        assert!(rt; matches!(decode(word), Some(Inst::Fence)), "{word:#010x}");
        assert_eq!(rt; encode_decoded(word), Some(0x0ff0000f));
    }
}
