//! How an instruction ends a run, and that it then changes no register. The values come from the manual's traps and from
//! an independent model of the machine.

use crate::machine::{AT, DATA, hart, step};
use pw_hart::End;
use std::alloc::Global;
use std::process::Abort;
use std::test::Fail;

/// The instruction cannot be carried out.
fn trap(cause: u8, value: u64) -> Option<End> {
    Some(End::Trap {
        cause,
        pc: AT,
        value,
    })
}

/// A checked fault in the line that a1 says.
fn checked(kind: u8) -> Option<End> {
    Some(End::Checked {
        kind,
        line: 9,
        pc: AT,
    })
}

/// The instruction word, for its values of t0, a0, a7 and the steps left, ends the run so, or goes on; where it ends, no
/// register changes.
fn expect(
    rt: &impl Abort,
    alloc: Global,
    table: &[(u32, [u64; 4], Option<End>)],
) -> Result<(), Fail> {
    for (word, [t0, a0, a7, steps], want) in table {
        let before = hart(*t0, 0, *a0, *a7, *steps);
        let (end, after, _) = step(alloc, *word, before)?;
        assert_eq!(rt; end, *want, "{word:#010x}");
        if end.is_some() {
            assert_eq!(rt; after, before, "{word:#010x}");
        }
    }
    Ok(())
}

#[test]
fn a_misaligned_target_traps_before_a_step_is_taken(rt: HostRuntime) -> Result<(), Fail> {
    let table = [
        // jalr ra, 0(t0): bit 0 is dropped, bit 1 is not
        (0x0002_80e7, [0x500_0003, 0, 0, 9], trap(0, 0x500_0002)),
        // jalr ra, 0(t0): the trap comes before the want of a step
        (0x0002_80e7, [0x500_0003, 0, 0, 0], trap(0, 0x500_0002)),
        // beq zero, zero, 6: taken, to an address that is even only
        (0x0000_0363, [0, 0, 0, 0], trap(0, 0x100_0016)),
    ];
    expect(&rt, rt.alloc(), &table)
}

#[test]
fn a_counted_jump_without_a_step_ends_the_run(rt: HostRuntime) -> Result<(), Fail> {
    let spent = Some(End::Spent);
    let table = [
        // jal ra, 8: a call is counted
        (0x0080_00ef, [0, 0, 0, 0], spent),
        // jal zero, 8: a jump forward is not
        (0x0080_006f, [0, 0, 0, 0], None),
        // jal zero, -8: a jump back is counted
        (0xff9f_f06f, [0, 0, 0, 0], spent),
        // jal zero, 0: and so is one to itself
        (0x0000_006f, [0, 0, 0, 0], spent),
        // beq zero, zero, -8: a branch back that is taken is counted
        (0xfe00_0ce3, [0, 0, 0, 0], spent),
        // beq zero, zero, 8: a branch forward is not
        (0x0000_0463, [0, 0, 0, 0], None),
        // bne zero, zero, -8: a branch that is not taken is not
        (0xfe00_1ce3, [0, 0, 0, 0], None),
        // jalr zero, 0(t0): a jump back by a register without a link is not
        (0x0002_8067, [0x100_0000, 0, 0, 0], None),
        // jalr a0, 0(t0): with a link it is
        (0x0002_8567, [0x100_0000, 0, 0, 0], spent),
        // jalr a0, 0(t0): forward it is not
        (0x0002_8567, [0x100_0020, 0, 0, 0], None),
    ];
    expect(&rt, rt.alloc(), &table)
}

#[test]
fn what_cannot_be_carried_out_traps(rt: HostRuntime) -> Result<(), Fail> {
    let table = [
        // ebreak: a breakpoint
        (0x0010_0073, [0, 0, 0, 0], trap(3, 0)),
        // no instruction: the value is the instruction word
        (0x0000_0000, [0, 0, 0, 0], trap(2, 0)),
        // no instruction: SYSTEM with another number
        (0x0020_0073, [0, 0, 0, 0], trap(2, 0x0020_0073)),
        // ld a0, 1(t0): a misaligned load
        (0x0012_b503, [DATA, 0, 0, 0], trap(4, 0x200_0001)),
        // ld a0, 0(t0): no region there
        (0x0002_b503, [0, 0, 0, 0], trap(5, 0)),
        // sw t0, 2(t0): a misaligned store
        (0x0052_a123, [DATA, 0, 0, 0], trap(6, 0x200_0002)),
        // sw t0, 0(t0): a store into text
        (0x0052_a023, [0x100_0000, 0, 0, 0], trap(7, 0x100_0000)),
    ];
    expect(&rt, rt.alloc(), &table)
}

#[test]
fn an_environment_call_goes_by_its_number(rt: HostRuntime) -> Result<(), Fail> {
    let table = [
        // 93: the exit with a0
        (0x73, [0, 7, 93, 0], Some(End::Exit(7))),
        // 1026: a checked fault of the kind a0
        (0x73, [0, 1, 1026, 0], checked(1)),
        // 1026: up to the kind 4
        (0x73, [0, 4, 1026, 0], checked(4)),
        // 1026: 0 is no kind
        (0x73, [0, 0, 1026, 0], trap(8, 1026)),
        // 1026: and 5 is none
        (0x73, [0, 5, 1026, 0], trap(8, 1026)),
        // 5: no environment call
        (0x73, [0, 0, 5, 0], trap(8, 5)),
    ];
    expect(&rt, rt.alloc(), &table)
}

#[test]
fn a_refused_fetch_traps_with_the_address(rt: HostRuntime) -> Result<(), Fail> {
    // no multiple of 4; no region; no executable region
    for pc in [0x100_0012, 0, DATA] {
        let mut before = hart(0, 0, 0, 0, 0);
        before.pc = pc;
        let (end, after, _) = step(rt.alloc(), 0, before)?;
        let want = End::Trap {
            cause: 1,
            pc,
            value: pc,
        };
        assert_eq!(rt; end, Some(want), "at {pc:#x}");
        assert_eq!(rt; after, before, "at {pc:#x}");
    }
    Ok(())
}
