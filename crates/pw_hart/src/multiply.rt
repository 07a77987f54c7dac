//! What multiplication and division of the M extension give.

ghost use Rattle.std.specs.Prelude.{◌≡◌};
ghost use Rattle.pw_hart.specs.Multiply.{high, mul, mulh, mulhsu, mulhu, div, divu, rem, remu, mulw, divw, divuw, remw, remuw};

use crate::word::{low_word, sign_extend_word, sign_extended};

/// What a division by zero gives, -1 as a signed number.
const ALL_ONES: u64 = u64::MAX;

/// The lowest 64 bits of the product.
pub fn mul(a: u64, b: u64) -> u64
    ensures { result ≡ mul a b }
{
    a.wrapping_mul(b)
}

/// The bits of a product above the lowest 64.
fn high(product: i128) -> u64
    ensures { result ≡ high product }
{
    ((product >> 64) as i64).cast_unsigned()
}

/// The upper 64 bits of the product, signed by signed.
pub fn mulh(a: u64, b: u64) -> u64
    ensures { result ≡ mulh a b }
{
    high(i128::from(a.cast_signed()) * i128::from(b.cast_signed()))
}

/// The upper 64 bits of the product, signed by unsigned.
pub fn mulhsu(a: u64, b: u64) -> u64
    ensures { result ≡ mulhsu a b }
{
    high(i128::from(a.cast_signed()) * i128::from(b))
}

/// The upper 64 bits of the product, unsigned by unsigned.
pub fn mulhu(a: u64, b: u64) -> u64
    ensures { result ≡ mulhu a b }
{
    ((u128::from(a) * u128::from(b)) >> 64) as u64
}

/// The quotient of signed numbers, rounded toward zero; all ones by zero.
pub fn div(a: u64, b: u64) -> u64
    ensures { result ≡ div a b }
{
    if b == 0 {
        return ALL_ONES;
    }
    a.cast_signed()
        .wrapping_div(b.cast_signed())
        .cast_unsigned()
}

/// The quotient of unsigned numbers; all ones by zero.
pub fn divu(a: u64, b: u64) -> u64
    ensures { result ≡ divu a b }
{
    if b == 0 { ALL_ONES } else { a / b }
}

/// The remainder of signed numbers, with the dividend's sign; the dividend by zero.
pub fn rem(a: u64, b: u64) -> u64
    ensures { result ≡ rem a b }
{
    if b == 0 {
        return a;
    }
    a.cast_signed()
        .wrapping_rem(b.cast_signed())
        .cast_unsigned()
}

/// The remainder of unsigned numbers; the dividend by zero.
pub fn remu(a: u64, b: u64) -> u64
    ensures { result ≡ remu a b }
{
    if b == 0 { a } else { a % b }
}

/// The product of words.
pub fn mulw(a: u64, b: u64) -> u64
    ensures { result ≡ mulw a b }
{
    sign_extend_word(a.wrapping_mul(b))
}

/// The quotient of signed words.
pub fn divw(a: u64, b: u64) -> u64
    ensures { result ≡ divw a b }
{
    let divisor = low_word(b);
    if divisor == 0 {
        return ALL_ONES;
    }
    sign_extended(
        low_word(a)
            .cast_signed()
            .wrapping_div(divisor.cast_signed()),
    )
}

/// The quotient of unsigned words.
pub fn divuw(a: u64, b: u64) -> u64
    ensures { result ≡ divuw a b }
{
    let divisor = low_word(b);
    if divisor == 0 {
        return ALL_ONES;
    }
    sign_extend_word(u64::from(low_word(a) / divisor))
}

/// The remainder of signed words.
pub fn remw(a: u64, b: u64) -> u64
    ensures { result ≡ remw a b }
{
    let divisor = low_word(b);
    if divisor == 0 {
        return sign_extend_word(a);
    }
    sign_extended(
        low_word(a)
            .cast_signed()
            .wrapping_rem(divisor.cast_signed()),
    )
}

/// The remainder of unsigned words.
pub fn remuw(a: u64, b: u64) -> u64
    ensures { result ≡ remuw a b }
{
    let divisor = low_word(b);
    if divisor == 0 {
        return sign_extend_word(a);
    }
    sign_extend_word(u64::from(low_word(a) % divisor))
}
