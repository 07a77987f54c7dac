//! What the W forms give: they work on the lowest 32 bits and sign-extend the result.

ghost use Rattle.std.specs.Prelude.{◌≡◌};
ghost use Rattle.std.specs.Int.{w8, w16, w32};
ghost use Rattle.pw_hart.specs.Bits.{bits64, sign_extend64, zero_extend};
ghost use Rattle.pw_hart.specs.Word.{addw, subw, sllw, srlw, sraw};

/// The lowest 32 bits.
pub fn low_word(n: u64) -> u32
    ensures { result ≡ zero_extend w32 n }
{
    (n % (1 << 32)) as u32
}

/// The 64 bits of a signed number.
pub fn sign_extended(z: i32) -> u64
    ensures { result ≡ bits64 z }
{
    i64::from(z).cast_unsigned()
}

/// The lowest 32 bits, with the highest of them copied into the bits above.
pub fn sign_extend_word(n: u64) -> u64
    ensures { result ≡ sign_extend64 w32 n }
{
    sign_extended(low_word(n).cast_signed())
}

/// The lowest 16 bits, with the highest of them copied into the bits above.
pub fn sign_extend_half(n: u64) -> u64
    ensures { result ≡ sign_extend64 w16 n }
{
    i64::from(((n % (1 << 16)) as u16).cast_signed()).cast_unsigned()
}

/// The lowest 8 bits, with the highest of them copied into the bits above.
pub fn sign_extend_byte(n: u64) -> u64
    ensures { result ≡ sign_extend64 w8 n }
{
    i64::from(((n % (1 << 8)) as u8).cast_signed()).cast_unsigned()
}

/// The sum.
pub fn addw(a: u64, b: u64) -> u64
    ensures { result ≡ addw a b }
{
    sign_extend_word(a.wrapping_add(b))
}

/// The difference.
pub fn subw(a: u64, b: u64) -> u64
    ensures { result ≡ subw a b }
{
    sign_extend_word(a.wrapping_sub(b))
}

/// The first number shifted left by the lowest 5 bits of the second.
pub fn sllw(a: u64, b: u64) -> u64
    ensures { result ≡ sllw a b }
{
    sign_extend_word(a << (b % 32))
}

/// The first number shifted right by the lowest 5 bits of the second, with zeros shifted in.
pub fn srlw(a: u64, b: u64) -> u64
    ensures { result ≡ srlw a b }
{
    sign_extend_word(u64::from(low_word(a)) >> (b % 32))
}

/// The same, with the sign bit of the lowest 32 copied in.
pub fn sraw(a: u64, b: u64) -> u64
    ensures { result ≡ sraw a b }
{
    sign_extended(low_word(a).cast_signed() >> (b % 32))
}
