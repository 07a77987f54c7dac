//! Reading a word: its fields, and the immediate that each format has in it.

ghost use Rattle.std.specs.Prelude.{◌≡◌, suc, ◌+◌, ◌-◌, ◌*◌, ◌<◌, ◌≤◌, ◌^◌};
ghost use Rattle.pw_isa.specs.Formats as formats;

/// Bits `high` to `low` of a number.
#[tactic(auto, using(std::proofs::lemmas::Nat::one_shl))]
pub fn bits(n: u32, high: u32, low: u32) -> u32
    requires order { low ≤ high }
    requires below { high < low + 31 }
    requires word { high < 32 }
    ensures value { result ≡ formats.bits n high low }
    ensures fits { result < 2 ^ (suc high - low) }
{
    (n >> low) % (1 << (high - low + 1))
}

/// Bits 6 to 0: the opcode.
pub fn opcode(word: u32) -> u8
    ensures { result ≡ formats.opcode_of word }
{
    bits(word, 6, 0) as u8
}

/// Bits 11 to 7: the destination register.
pub fn rd(word: u32) -> u8
    ensures { result ≡ formats.rd_of word }
{
    bits(word, 11, 7) as u8
}

/// Bits 14 to 12: the function code of three bits.
pub fn funct3(word: u32) -> u8
    ensures { result ≡ formats.funct3_of word }
{
    bits(word, 14, 12) as u8
}

/// Bits 19 to 15: the first source register.
pub fn rs1(word: u32) -> u8
    ensures { result ≡ formats.rs1_of word }
{
    bits(word, 19, 15) as u8
}

/// Bits 24 to 20: the second source register.
pub fn rs2(word: u32) -> u8
    ensures { result ≡ formats.rs2_of word }
{
    bits(word, 24, 20) as u8
}

/// Bits 31 to 25: the function code of seven bits.
pub fn funct7(word: u32) -> u8
    ensures { result ≡ formats.funct7_of word }
{
    bits(word, 31, 25) as u8
}

/// The count of a shift by six bits.
pub fn shamt(word: u32) -> u8
    ensures { result ≡ formats.shamt_of word }
{
    bits(word, 25, 20) as u8
}

/// The bits above such a count.
pub fn funct6(word: u32) -> u8
    ensures { result ≡ formats.funct6_of word }
{
    bits(word, 31, 26) as u8
}

/// The number of a field whose sign bit has the weight `sign`.
fn sign_extend(sign: u32, field: u32) -> i32
    requires small { sign ≤ 2 ^ 20 }
    requires fits { field < sign + sign }
    ensures { result ≡ formats.sign_extend sign field }
{
    if field < sign {
        field as i32
    } else {
        field as i32 - 2 * sign as i32
    }
}

/// The immediate of the I format.
pub fn i_immediate(word: u32) -> i32
    ensures { result ≡ formats.i_immediate_of word }
{
    sign_extend(1 << 11, bits(word, 31, 20))
}

/// The immediate of the S format.
pub fn s_immediate(word: u32) -> i32
    ensures { result ≡ formats.s_immediate_of word }
{
    sign_extend(1 << 11, (bits(word, 31, 25) << 5) + bits(word, 11, 7))
}

/// The immediate of the B format: a distance in bytes.
pub fn b_immediate(word: u32) -> i32
    ensures { result ≡ formats.b_immediate_of word }
{
    let high = (bits(word, 31, 31) << 12) + (bits(word, 7, 7) << 11);
    sign_extend(
        1 << 12,
        high + (bits(word, 30, 25) << 5) + (bits(word, 11, 8) << 1),
    )
}

/// The immediate of the U format: the upper 20 bits, as a number of its own.
pub fn u_immediate(word: u32) -> i32
    ensures { result ≡ formats.u_immediate_of word }
{
    sign_extend(1 << 19, bits(word, 31, 12))
}

/// The immediate of the J format: a distance in bytes.
pub fn j_immediate(word: u32) -> i32
    ensures { result ≡ formats.j_immediate_of word }
{
    let high = (bits(word, 31, 31) << 20) + (bits(word, 19, 12) << 12);
    sign_extend(
        1 << 20,
        high + (bits(word, 20, 20) << 11) + (bits(word, 30, 21) << 1),
    )
}
