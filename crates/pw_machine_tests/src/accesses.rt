//! What each load leaves in a0, and what each store leaves of the data. The values follow from the bytes 0x81 to 0x88
//! that stand there, the lowest first.

use crate::machine::{DATA, hart, step};
use std::test::Fail;

#[test]
fn every_load_extends_its_number(rt: HostRuntime) -> Result<(), Fail> {
    // an instruction word and a0
    let table = [
        // lb a0, 0(t0): a byte, sign-extended
        (0x0002_8503_u32, 0xffff_ffff_ffff_ff81),
        // lbu a0, 0(t0): zero-extended
        (0x0002_c503, 0x81),
        // lh a0, 0(t0): two bytes, sign-extended
        (0x0002_9503, 0xffff_ffff_ffff_8281),
        // lhu a0, 0(t0): zero-extended
        (0x0002_d503, 0x8281),
        // lw a0, 0(t0): four bytes, sign-extended
        (0x0002_a503, 0xffff_ffff_8483_8281),
        // lwu a0, 0(t0): zero-extended
        (0x0002_e503, 0x8483_8281),
        // ld a0, 0(t0): all eight
        (0x0002_b503, 0x8887_8685_8483_8281_u64),
    ];
    for (word, a0) in &table {
        let (end, after, _) = step(rt.alloc(), *word, hart(DATA, 0, 0, 0, 2))?;
        assert_eq!(rt; end, None, "{word:#010x}");
        assert_eq!(rt; after.x[10], *a0, "{word:#010x}");
    }
    Ok(())
}

#[test]
fn every_store_writes_its_lowest_bytes(rt: HostRuntime) -> Result<(), Fail> {
    // an instruction word and the data after it, where t1 is 0x1122_3344_5566_7788
    let table = [
        // sb t1, 1(t0): the second byte
        (0x0062_80a3_u32, 0x8887_8685_8483_8881_u64),
        // sh t1, 2(t0): the third and the fourth
        (0x0062_9123, 0x8887_8685_7788_8281),
        // sw t1, 4(t0): the upper four
        (0x0062_a223, 0x5566_7788_8483_8281),
        // sd t1, 0(t0): all eight
        (0x0062_b023, 0x1122_3344_5566_7788),
    ];
    for (word, data) in &table {
        let before = hart(DATA, 0x1122_3344_5566_7788, 0, 0, 2);
        let (end, _, left) = step(rt.alloc(), *word, before)?;
        assert_eq!(rt; end, None, "{word:#010x}");
        assert_eq!(rt; left, *data, "{word:#010x}");
    }
    Ok(())
}
