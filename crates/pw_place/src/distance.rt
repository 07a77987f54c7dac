//! The parts of a distance.
ghost use Rattle.pw_place.specs.Distances.{IsWithinReach, AreParts};

/// How many bytes one step of the upper part is.
const PAGE: i64 = 0x1000;

/// Half a page: the lower part is signed, so the upper part is rounded to the closest page.
const HALF_PAGE: i64 = 0x800;

/// How many values the upper part has as a number of 20 bits.
const UPPER_VALUES: i64 = 0x10_0000;

/// The parts of a distance that two instructions add to an address: `auipc` the upper 20 bits, the second one the signed lower
/// 12 bits.
pub fn hi_lo(distance: i64) -> (u32, i32)
    requires { IsWithinReach distance }
    ensures { AreParts distance result.0 result.1 }
{
    let upper = (distance + HALF_PAGE) >> 12;
    let hi = upper.rem_euclid(UPPER_VALUES);
    let lo = distance - PAGE * upper;
    (hi as u32, lo as i32)
}
