//! Distances and the parts that a pair of instructions has them in.

use pw_place::hi_lo;
use std::test::Fail;

#[test]
fn a_short_distance_has_a_lower_part_alone(rt: HostRuntime) -> Result<(), Fail> {
    assert_eq!(rt; hi_lo(0), (0, 0));
    assert_eq!(rt; hi_lo(0x7ff), (0, 2047));
    assert_eq!(rt; hi_lo(-0x800), (0, -2048));
    Ok(())
}

#[test]
fn the_upper_part_is_rounded_to_the_closest(rt: HostRuntime) -> Result<(), Fail> {
    assert_eq!(rt; hi_lo(0x800), (1, -2048));
    assert_eq!(rt; hi_lo(-0x801), (0xf_ffff, 2047));
    Ok(())
}

#[test]
fn a_pair_reaches_two_gibibytes(rt: HostRuntime) -> Result<(), Fail> {
    assert_eq!(rt; hi_lo(0x7fff_f7ff), (0x7_ffff, 2047));
    assert_eq!(rt; hi_lo(-0x8000_0800), (0x8_0000, -2048));
    Ok(())
}
