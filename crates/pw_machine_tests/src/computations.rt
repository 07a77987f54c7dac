//! What each computational instruction leaves in a0: rows of an instruction word, t0, t1 and a0. The values come from an
//! independent model of the machine.

use crate::machine::{NEXT, hart, step};
use std::alloc::Global;
use std::process::Abort;
use std::test::Fail;

const MIN: i64 = i64::MIN;

const MAX: i64 = i64::MAX;

/// Each instruction word leaves its last number in a0 for its values of t0 and t1, goes on after itself and takes no
/// step.
fn expect(rt: &impl Abort, alloc: Global, table: &[(u32, i64, i64, i64)]) -> Result<(), Fail> {
    for (word, t0, t1, a0) in table {
        let before = hart(t0.cast_unsigned(), t1.cast_unsigned(), 0, 0, 2);
        let (end, after, _) = step(alloc, *word, before)?;
        assert_eq!(rt; end, None, "{word:#010x} of {t0} and {t1}");
        assert_eq!(rt;
            after.x[10].cast_signed(),
            *a0,
            "{word:#010x} of {t0} and {t1}"
        );
        assert_eq!(rt; after.pc, NEXT);
        assert_eq!(rt; after.steps, 2);
    }
    Ok(())
}

#[test]
fn integer_instructions_on_two_registers(rt: HostRuntime) -> Result<(), Fail> {
    let table = [
        // add a0, t0, t1: a carry out is dropped
        (0x00628533, 1, 2, 3),
        (0x00628533, -1, 1, 0),
        (0x00628533, MAX, 1, MIN),
        // sub a0, t0, t1: a borrow is dropped
        (0x40628533, 3, 1, 2),
        (0x40628533, 1, 2, -1),
        (0x40628533, MIN, 1, MAX),
        // sll a0, t0, t1: the lowest 6 bits of the second count
        (0x00629533, 3, 1, 6),
        (0x00629533, 3, 63, MIN),
        (0x00629533, 3, 64, 3),
        // slt a0, t0, t1: signed numbers
        (0x0062a533, -1, 0, 1),
        (0x0062a533, 0, -1, 0),
        (0x0062a533, MIN, MAX, 1),
        (0x0062a533, 5, 5, 0),
        // sltu a0, t0, t1: unsigned numbers
        (0x0062b533, -1, 0, 0),
        (0x0062b533, 0, -1, 1),
        (0x0062b533, MIN, MAX, 0),
        (0x0062b533, 5, 5, 0),
        // xor a0, t0, t1: bit by bit
        (
            0x0062c533,
            0x7f00_ff00_ff00_ff00,
            0x0ff0_0ff0_0ff0_0ff0,
            0x70f0_f0f0_f0f0_f0f0,
        ),
        (0x0062c533, -1, -1, 0),
        // srl a0, t0, t1: zeros are shifted in
        (0x0062d533, MIN, 63, 1),
        (0x0062d533, -1, 1, MAX),
        (0x0062d533, -1, 64, -1),
        // sra a0, t0, t1: the sign is shifted in
        (0x4062d533, MIN, 63, -1),
        (0x4062d533, MIN, 1, -0x4000_0000_0000_0000),
        (0x4062d533, MAX, 1, 0x3fff_ffff_ffff_ffff),
        (0x4062d533, -1, 64, -1),
        // or a0, t0, t1: bit by bit
        (
            0x0062e533,
            0x7f00_ff00_ff00_ff00,
            0x0ff0_0ff0_0ff0_0ff0,
            0x7ff0_fff0_fff0_fff0,
        ),
        (0x0062e533, 0, -1, -1),
        // and a0, t0, t1: bit by bit
        (
            0x0062f533,
            0x7f00_ff00_ff00_ff00,
            0x0ff0_0ff0_0ff0_0ff0,
            0x0f00_0f00_0f00_0f00,
        ),
        (0x0062f533, 0, -1, 0),
    ];
    expect(&rt, rt.alloc(), &table)
}

#[test]
fn multiplication_and_division(rt: HostRuntime) -> Result<(), Fail> {
    let table = [
        // mul a0, t0, t1: the lowest 64 bits of the product
        (0x02628533, 3, -7, -21),
        (0x02628533, -1, -1, 1),
        (0x02628533, 0x0000_0001_0000_0000, 0x0000_0001_0000_0000, 0),
        (0x02628533, MIN, 3, MIN),
        // mulh a0, t0, t1: the highest 64 bits, signed by signed
        (0x02629533, -1, -1, 0),
        (0x02629533, -1, 1, -1),
        (0x02629533, MIN, MIN, 0x4000_0000_0000_0000),
        (0x02629533, MIN, -1, 0),
        (0x02629533, MIN, MAX, -0x4000_0000_0000_0000),
        // mulhsu a0, t0, t1: the highest 64 bits, signed by unsigned
        (0x0262a533, -1, -1, -1),
        (0x0262a533, 1, -1, 0),
        (0x0262a533, MIN, 2, -1),
        (0x0262a533, 2, MIN, 1),
        // mulhu a0, t0, t1: the highest 64 bits, unsigned by unsigned
        (0x0262b533, -1, -1, -2),
        (0x0262b533, MIN, 2, 1),
        (0x0262b533, 1, -1, 0),
        // div a0, t0, t1: rounded toward zero; by zero all ones; the overflow
        (0x0262c533, 7, -2, -3),
        (0x0262c533, -7, 2, -3),
        (0x0262c533, 7, 0, -1),
        (0x0262c533, MIN, -1, MIN),
        // divu a0, t0, t1: unsigned numbers; by zero all ones
        (0x0262d533, -1, 2, MAX),
        (0x0262d533, 7, 0, -1),
        (0x0262d533, 7, -2, 0),
        // rem a0, t0, t1: the dividend's sign; by zero the dividend; the overflow
        (0x0262e533, 7, -2, 1),
        (0x0262e533, -7, 2, -1),
        (0x0262e533, 7, 0, 7),
        (0x0262e533, MIN, -1, 0),
        // remu a0, t0, t1: unsigned numbers; by zero the dividend
        (0x0262f533, -1, 2, 1),
        (0x0262f533, 7, 0, 7),
        (0x0262f533, 7, -2, 7),
    ];
    expect(&rt, rt.alloc(), &table)
}

#[test]
fn word_instructions_on_two_registers(rt: HostRuntime) -> Result<(), Fail> {
    let table = [
        // addw a0, t0, t1: the sum of the lowest 32 bits, sign-extended
        (0x0062853b, 0x7fff_ffff, 1, -0x8000_0000),
        (0x0062853b, 0xffff_ffff, 1, 0),
        (0x0062853b, 0x0000_0001_0000_0001, 2, 3),
        // subw a0, t0, t1: the difference of the lowest 32 bits, sign-extended
        (0x4062853b, 1, 2, -1),
        (0x4062853b, 0x8000_0000, 1, 0x7fff_ffff),
        (0x4062853b, 0x0000_0001_0000_0003, 1, 2),
        // sllw a0, t0, t1: the lowest 5 bits of the second count
        (0x0062953b, 1, 31, -0x8000_0000),
        (0x0062953b, 1, 32, 1),
        (0x0062953b, 3, 31, -0x8000_0000),
        // srlw a0, t0, t1: zeros are shifted into 32 bits
        (0x0062d53b, 0x8000_0000, 31, 1),
        (0x0062d53b, 0x8000_0000, 32, -0x8000_0000),
        (0x0062d53b, -1, 1, 0x7fff_ffff),
        // sraw a0, t0, t1: the sign of 32 bits is shifted in
        (0x4062d53b, 0x8000_0000, 31, -1),
        (0x4062d53b, 0x8000_0000, 32, -0x8000_0000),
        (0x4062d53b, 0x7fff_ffff, 1, 0x3fff_ffff),
        (0x4062d53b, 0x0000_0001_0000_0000, 1, 0),
    ];
    expect(&rt, rt.alloc(), &table)
}

#[test]
fn multiplication_and_division_of_words(rt: HostRuntime) -> Result<(), Fail> {
    let table = [
        // mulw a0, t0, t1: the lowest 32 bits of the product, sign-extended
        (0x0262853b, 0x8000_0000, 3, -0x8000_0000),
        (0x0262853b, -1, -1, 1),
        (0x0262853b, 0x0001_0000, 0x0001_0000, 0),
        // divw a0, t0, t1: rounded toward zero; by a zero word all ones; the overflow
        (0x0262c53b, 7, -2, -3),
        (0x0262c53b, -7, 2, -3),
        (0x0262c53b, 7, 0x0000_0001_0000_0000, -1),
        (0x0262c53b, 0x8000_0000, -1, -0x8000_0000),
        (0x0262c53b, 7, 0, -1),
        // divuw a0, t0, t1: unsigned words, sign-extended; by a zero word all ones
        (0x0262d53b, 0xffff_ffff, 2, 0x7fff_ffff),
        (0x0262d53b, 7, 0x0000_0001_0000_0000, -1),
        (0x0262d53b, 0x8000_0000, 1, -0x8000_0000),
        (0x0262d53b, 7, 0, -1),
        // remw a0, t0, t1: the dividend's sign; by a zero word the dividend; the overflow
        (0x0262e53b, 7, -2, 1),
        (0x0262e53b, -7, 2, -1),
        (0x0262e53b, 0x8000_0007, 0x0000_0001_0000_0000, -0x7fff_fff9),
        (0x0262e53b, 0x8000_0000, -1, 0),
        // remuw a0, t0, t1: unsigned words; by a zero word the dividend
        (0x0262f53b, 0xffff_ffff, 2, 1),
        (0x0262f53b, 0x8000_0007, 0x0000_0001_0000_0000, -0x7fff_fff9),
        (0x0262f53b, 0x0000_0001_0000_0007, 4, 3),
    ];
    expect(&rt, rt.alloc(), &table)
}

#[test]
fn integer_instructions_with_an_immediate(rt: HostRuntime) -> Result<(), Fail> {
    let table = [
        // addi a0, t0, -1: the immediate is sign-extended
        (0xfff28513, 1, 0, 0),
        (0xfff28513, 0, 0, -1),
        // addi a0, t0, 2047: the immediate is sign-extended
        (0x7ff28513, 1, 0, 2048),
        (0x7ff28513, -2048, 0, -1),
        // slti a0, t0, -1: signed numbers
        (0xfff2a513, 0, 0, 0),
        (0xfff2a513, MIN, 0, 1),
        (0xfff2a513, -1, 0, 0),
        // slti a0, t0, 2047: signed numbers
        (0x7ff2a513, 2046, 0, 1),
        (0x7ff2a513, 2047, 0, 0),
        // sltiu a0, t0, -1: the sign-extended immediate as an unsigned number
        (0xfff2b513, 0, 0, 1),
        (0xfff2b513, -1, 0, 0),
        // sltiu a0, t0, 1: the sign-extended immediate as an unsigned number
        (0x0012b513, 0, 0, 1),
        (0x0012b513, 1, 0, 0),
        // xori a0, t0, -1: with -1 each bit is turned
        (0xfff2c513, 5, 0, -6),
        // xori a0, t0, 2047: with -1 each bit is turned
        (0x7ff2c513, -1, 0, -2048),
        // ori a0, t0, -1: bit by bit
        (0xfff2e513, 5, 0, -1),
        // ori a0, t0, 2047: bit by bit
        (0x7ff2e513, -2048, 0, -1),
        // andi a0, t0, -1: bit by bit
        (0xfff2f513, 5, 0, 5),
        // andi a0, t0, 2047: bit by bit
        (0x7ff2f513, -1, 0, 2047),
    ];
    expect(&rt, rt.alloc(), &table)
}

#[test]
fn shifts_by_a_count_and_words_with_an_immediate(rt: HostRuntime) -> Result<(), Fail> {
    let table = [
        // slli a0, t0, 0: a count of 6 bits
        (0x00029513, 5, 0, 5),
        // slli a0, t0, 31: a count of 6 bits
        (0x01f29513, 3, 0, 0x0000_0001_8000_0000),
        // slli a0, t0, 63: a count of 6 bits
        (0x03f29513, 3, 0, MIN),
        // srli a0, t0, 0: zeros are shifted in
        (0x0002d513, 5, 0, 5),
        // srli a0, t0, 32: zeros are shifted in
        (0x0202d513, -1, 0, 0xffff_ffff),
        // srli a0, t0, 63: zeros are shifted in
        (0x03f2d513, MIN, 0, 1),
        // srai a0, t0, 0: the sign is shifted in
        (0x4002d513, 5, 0, 5),
        // srai a0, t0, 32: the sign is shifted in
        (0x4202d513, MIN, 0, -0x8000_0000),
        // srai a0, t0, 63: the sign is shifted in
        (0x43f2d513, MIN, 0, -1),
        // srai a0, t0, 63: the sign is shifted in
        (0x43f2d513, MAX, 0, 0),
        // addiw a0, t0, -1: the sum of the lowest 32 bits, sign-extended
        (0xfff2851b, 0, 0, -1),
        (0xfff2851b, 0x8000_0000, 0, 0x7fff_ffff),
        // addiw a0, t0, 1: the sum of the lowest 32 bits, sign-extended
        (0x0012851b, 0x7fff_ffff, 0, -0x8000_0000),
        // slliw a0, t0, 0: the lowest 32 bits, sign-extended
        (0x0002951b, 0x8000_0000, 0, -0x8000_0000),
        // slliw a0, t0, 31: the lowest 32 bits, sign-extended
        (0x01f2951b, 3, 0, -0x8000_0000),
        // srliw a0, t0, 0: zeros are shifted into 32 bits; by 0 the sign is extended
        (0x0002d51b, 0x8000_0000, 0, -0x8000_0000),
        // srliw a0, t0, 31: zeros are shifted into 32 bits; by 0 the sign is extended
        (0x01f2d51b, -1, 0, 1),
        // sraiw a0, t0, 0: the sign of 32 bits is shifted in
        (0x4002d51b, 0x8000_0000, 0, -0x8000_0000),
        // sraiw a0, t0, 31: the sign of 32 bits is shifted in
        (0x41f2d51b, 0x8000_0000, 0, -1),
        // sraiw a0, t0, 1: the sign of 32 bits is shifted in
        (0x4012d51b, 0x7fff_ffff, 0, 0x3fff_ffff),
    ];
    expect(&rt, rt.alloc(), &table)
}

#[test]
fn upper_immediates(rt: HostRuntime) -> Result<(), Fail> {
    let table = [
        // lui a0, 1: the immediate times 4096, sign-extended
        (0x00001537, 0, 0, 0x0000_1000),
        // lui a0, -524288: the immediate times 4096, sign-extended
        (0x80000537, 0, 0, -0x8000_0000),
        // lui a0, 524287: the immediate times 4096, sign-extended
        (0x7ffff537, 0, 0, 0x7fff_f000),
        // auipc a0, 1: and with the address of the instruction
        (0x00001517, 0, 0, 0x0100_1010),
        // auipc a0, -524288: and with the address of the instruction
        (0x80000517, 0, 0, -0x7eff_fff0),
        // auipc a0, 524287: and with the address of the instruction
        (0x7ffff517, 0, 0, 0x80ff_f010),
    ];
    expect(&rt, rt.alloc(), &table)
}
