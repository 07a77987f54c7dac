//! Where branches and jumps go on, and which of them take a step. The values come from an independent model of the machine.

use crate::machine::{BACK, FORWARD, NEXT, TEXT, hart, step};
use std::alloc::Global;
use std::process::Abort;
use std::test::Fail;

/// Each branch goes on at its address for its values of t0 and t1, and leaves so many of two steps.
fn expect_branches(
    rt: &impl Abort,
    alloc: Global,
    table: &[(u32, i64, i64, u64, u64)],
) -> Result<(), Fail> {
    for (word, t0, t1, pc, steps) in table {
        let before = hart(t0.cast_unsigned(), t1.cast_unsigned(), 0, 0, 2);
        let (end, after, _) = step(alloc, *word, before)?;
        assert_eq!(rt; end, None, "{word:#010x} of {t0} and {t1}");
        assert_eq!(rt; after.pc, *pc, "{word:#010x} of {t0} and {t1}");
        assert_eq!(rt; after.steps, *steps, "{word:#010x} of {t0} and {t1}");
    }
    Ok(())
}

#[test]
fn branches_on_equal_numbers(rt: HostRuntime) -> Result<(), Fail> {
    let table = [
        // beq t0, t1, 8: taken where t0 is t1; forward, it takes no step
        (0x00628463, 5, 5, FORWARD, 2),
        (0x00628463, 5, 6, NEXT, 2),
        // beq t0, t1, -8: taken where t0 is t1; back, it takes a step
        (0xfe628ce3, 5, 5, BACK, 1),
        (0xfe628ce3, 5, 6, NEXT, 2),
        // bne t0, t1, 8: taken where t0 is not t1; forward, it takes no step
        (0x00629463, 5, 6, FORWARD, 2),
        (0x00629463, 5, 5, NEXT, 2),
        // bne t0, t1, -8: taken where t0 is not t1; back, it takes a step
        (0xfe629ce3, 5, 6, BACK, 1),
        (0xfe629ce3, 5, 5, NEXT, 2),
    ];
    expect_branches(&rt, rt.alloc(), &table)
}

#[test]
fn branches_on_signed_numbers(rt: HostRuntime) -> Result<(), Fail> {
    let table = [
        // blt t0, t1, 8: taken where t0 is below t1, signed; forward, it takes no step
        (0x0062c463, -1, 0, FORWARD, 2),
        (0x0062c463, 0, -1, NEXT, 2),
        (0x0062c463, 5, 5, NEXT, 2),
        // blt t0, t1, -8: taken where t0 is below t1, signed; back, it takes a step
        (0xfe62cce3, -1, 0, BACK, 1),
        (0xfe62cce3, 0, -1, NEXT, 2),
        (0xfe62cce3, 5, 5, NEXT, 2),
        // bge t0, t1, 8: taken where t0 is not below t1, signed; forward, it takes no step
        (0x0062d463, 0, -1, FORWARD, 2),
        (0x0062d463, 5, 5, FORWARD, 2),
        (0x0062d463, -1, 0, NEXT, 2),
        // bge t0, t1, -8: taken where t0 is not below t1, signed; back, it takes a step
        (0xfe62dce3, 0, -1, BACK, 1),
        (0xfe62dce3, 5, 5, BACK, 1),
        (0xfe62dce3, -1, 0, NEXT, 2),
    ];
    expect_branches(&rt, rt.alloc(), &table)
}

#[test]
fn branches_on_unsigned_numbers(rt: HostRuntime) -> Result<(), Fail> {
    let table = [
        // bltu t0, t1, 8: taken where t0 is below t1, unsigned; forward, it takes no step
        (0x0062e463, 0, -1, FORWARD, 2),
        (0x0062e463, -1, 0, NEXT, 2),
        (0x0062e463, 5, 5, NEXT, 2),
        // bltu t0, t1, -8: taken where t0 is below t1, unsigned; back, it takes a step
        (0xfe62ece3, 0, -1, BACK, 1),
        (0xfe62ece3, -1, 0, NEXT, 2),
        (0xfe62ece3, 5, 5, NEXT, 2),
        // bgeu t0, t1, 8: taken where t0 is not below t1, unsigned; forward, it takes no step
        (0x0062f463, -1, 0, FORWARD, 2),
        (0x0062f463, 5, 5, FORWARD, 2),
        (0x0062f463, 0, -1, NEXT, 2),
        // bgeu t0, t1, -8: taken where t0 is not below t1, unsigned; back, it takes a step
        (0xfe62fce3, -1, 0, BACK, 1),
        (0xfe62fce3, 5, 5, BACK, 1),
        (0xfe62fce3, 0, -1, NEXT, 2),
    ];
    expect_branches(&rt, rt.alloc(), &table)
}

/// Each jump leaves these in ra, t0 and a0, goes on at its address, and leaves so many of two steps.
fn expect_jumps(
    rt: &impl Abort,
    alloc: Global,
    table: &[(u32, u64, [u64; 3], u64, u64)],
) -> Result<(), Fail> {
    for (word, t0, links, pc, steps) in table {
        let (end, after, _) = step(alloc, *word, hart(*t0, 0, 0, 0, 2))?;
        let [ra, t0, a0] = *links;
        assert_eq!(rt; end, None, "{word:#010x}");
        assert_eq!(rt; after.x[1], ra, "{word:#010x}");
        assert_eq!(rt; after.x[5], t0, "{word:#010x}");
        assert_eq!(rt; after.x[10], a0, "{word:#010x}");
        assert_eq!(rt; after.pc, *pc, "{word:#010x}");
        assert_eq!(rt; after.steps, *steps, "{word:#010x}");
    }
    Ok(())
}

#[test]
fn jumps_link_and_take_a_step_for_a_call_and_for_the_way_back(rt: HostRuntime) -> Result<(), Fail> {
    // an instruction word, t0 before, and ra, t0, a0, the address and the steps after
    let table = [
        // jal ra, 8: a call takes a step
        (0x008000ef, 0, [NEXT, 0, 0], FORWARD, 1),
        // jal zero, 8: forward without a link: no step
        (0x0080006f, 0, [0, 0, 0], FORWARD, 2),
        // jal a0, 8: forward with another link: no step
        (0x0080056f, 0, [0, 0, NEXT], FORWARD, 2),
        // jal a0, -8: back: a step
        (0xff9ff56f, 0, [0, 0, NEXT], BACK, 1),
        // jal zero, -8: back: a step
        (0xff9ff06f, 0, [0, 0, 0], BACK, 1),
        // jalr ra, 3(t0): a call takes a step; bit 0 of the target is dropped in the sum
        (
            0x003280e7,
            0x0200_0001,
            [NEXT, 0x0200_0001, 0],
            0x0200_0004,
            1,
        ),
        // jalr zero, -1(t0): back without a link: no step
        (0xfff28067, 0x0100_0001, [0, 0x0100_0001, 0], TEXT, 2),
        // jalr zero, 0(t0): forward without a link: no step
        (0x00028067, 0x0200_0000, [0, 0x0200_0000, 0], 0x0200_0000, 2),
        // jalr t0, 1(t0): t0 is read before it is written; bit 0 of the target is dropped
        (0x001282e7, 0x0200_0004, [0, NEXT, 0], 0x0200_0004, 2),
        // jalr a0, 0(t0): back with another link: a step
        (0x00028567, BACK, [0, BACK, NEXT], BACK, 1),
        // jalr ra, -1(t0): to address 0
        (0xfff280e7, 1, [NEXT, 1, 0], 0, 1),
    ];
    expect_jumps(&rt, rt.alloc(), &table)
}

#[test]
fn fence_and_a_write_to_x0_change_no_register(rt: HostRuntime) -> Result<(), Fail> {
    // fence; add zero, t0, t1
    for word in [0x0ff0_000f_u32, 0x0062_8033] {
        let mut want = hart(5, 6, 0, 0, 2);
        let (end, after, _) = step(rt.alloc(), word, want)?;
        want.pc = NEXT;
        assert_eq!(rt; end, None, "{word:#010x}");
        assert_eq!(rt; after, want, "{word:#010x}");
    }
    Ok(())
}
