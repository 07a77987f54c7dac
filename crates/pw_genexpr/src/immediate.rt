//! The code that puts a number into a register.
ghost use Rattle.std.specs.Prelude.{◌≡◌, ◌+◌, ◌*◌, ◌<◌, ◌≤◌, true};
ghost use Rattle.std.specs.Int.{cast_signed, w64};
ghost use Rattle.pw_code.specs.LoadImmediate.{is_within, lower, rest, upper_immediate, load_32_bits, load_signed, load_immediate, signed_words, immediate_words};
ghost use Rattle.pw_genexpr.specs.Appends.{Appends};

use crate::put::{put_instruction, put_instructions};
use pw_base::NoMemory;
use pw_code::Item;
use pw_isa::Inst;
use pw_isa::registers::ZERO;

/// The rest of a number of 64 bits is loaded so many times at most.
const TIMES: u8 = 3;

/// The low twelve bits of a number, from -2048 to 2047.
fn lower(value: i64) -> i32
    ensures { result ≡ lower value }
{
    let low = (value.cast_unsigned() % 4096) as i32;
    if low < 2048 { low } else { low - 4096 }
}

/// A number without its low twelve bits, in 52 bits.
fn rest(value: i64) -> i64
    ensures { result ≡ rest value }
{
    value.wrapping_sub(i64::from(lower(value))) >> 12
}

/// The immediate of the `lui` that loads the upper bits of a number.
fn upper_immediate(value: i32) -> i32
    ensures { result ≡ upper_immediate value }
{
    let upper = ((i64::from(value) + 0x800) >> 12) as i32;
    if upper < 0x8_0000 {
        upper
    } else {
        upper - 0x10_0000
    }
}

/// Whether a number is an immediate of `addi`.
fn is_immediate(value: i32) -> bool
    ensures { result ≡ is_within 11 value }
{
    -2048 <= value && value <= 2047
}

/// Whether a number has 32 bits.
fn is_narrow(value: i64) -> bool
    ensures { result ≡ is_within 31 value }
{
    -0x8000_0000 <= value && value <= 0x7fff_ffff
}

/// Appends the code that loads a number of 32 bits.
fn put_32_bits(rd: u8, value: i32, to: &mut Vec<Item>) -> Result<(), NoMemory>
    requires { rd < 32 }
    ensures { Appends (load_32_bits rd value) to.old.items to.new.items result }
{
    if is_immediate(value) {
        return put_instruction(
            &Inst::Addi {
                rd,
                rs1: ZERO,
                imm: value,
            },
            to,
        );
    }
    let pair = [
        Inst::Lui {
            rd,
            imm: upper_immediate(value),
        },
        Inst::Addiw {
            rd,
            rs1: rd,
            imm: lower(i64::from(value)),
        },
    ];
    put_instructions(&pair, to)
}

/// Appends the code that loads a number whose rest is loaded `times` times at most.
fn put_signed(times: u8, rd: u8, value: i64, to: &mut Vec<Item>) -> Result<(), NoMemory>
    requires register { rd < 32 }
    requires few { times ≤ 3 }
    requires narrow { is_within (30 + 11 * times) value ≡ true }
    ensures { Appends (load_signed times rd value) to.old.items to.new.items result }
{
    if is_narrow(value) {
        return put_32_bits(rd, value as i32, to);
    }
    put_signed(times - 1, rd, rest(value), to)?;
    let low = [
        Inst::Slli {
            rd,
            rs1: rd,
            count: 12,
        },
        Inst::Addi {
            rd,
            rs1: rd,
            imm: lower(value),
        },
    ];
    put_instructions(&low, to)
}

/// Appends the code that loads a number.
pub fn put_load_immediate(rd: u8, value: u64, to: &mut Vec<Item>) -> Result<(), NoMemory>
    requires { rd < 32 }
    ensures { Appends (load_immediate rd value) to.old.items to.new.items result }
{
    put_signed(TIMES, rd, value.cast_signed(), to)
}

/// How many words load a number of 32 bits.
#[tactic(auto, unfolding(pw_code::specs::LoadImmediate::signed_words))]
fn words_at_once(value: i64) -> u32
    requires { is_within 31 value ≡ true }
    ensures words { result ≡ signed_words 0 value }
    ensures few { result ≤ 2 }
{
    if is_immediate(value as i32) { 1 } else { 2 }
}

/// How many words load a number whose rest is loaded `times` times at most.
fn signed_words(times: u8, value: i64) -> u32
    requires few { times ≤ 3 }
    requires narrow { is_within (30 + 11 * times) value ≡ true }
    ensures words { result ≡ signed_words times value }
    ensures few { result ≤ 2 * times + 2 }
{
    if is_narrow(value) {
        return words_at_once(value);
    }
    signed_words(times - 1, rest(value)) + 2
}

/// How many words load a number.
pub fn immediate_words(value: u64) -> u32
    ensures words { result ≡ immediate_words value }
    ensures few { result ≤ 8 }
{
    signed_words(TIMES, value.cast_signed())
}
