//! Division at its corners (RISC-V unprivileged manual, "M" extension, table of semantics for division by zero and
//! overflow).
use bitflags::Flags;
use pw_hart::Hart;
use pw_io::{MemSink, MemSource};
use pw_mem::{FlatMemory, Memory, Region, Rights};
use std::alloc::Global;
use std::test::Fail;

/// `div x6, x5, x10` and `rem x6, x5, x10`.
const DIV: u32 = 0x02a2_c333;

const REM: u32 = 0x02a2_e333;

/// What the instruction leaves in x6 for these values of x5 and x10.
fn result(alloc: Global, word: u32, dividend: u64, divisor: u64) -> Result<u64, Fail> {
    let mut mem = FlatMemory::new(alloc);
    let rights = Flags::union(Rights::READ, Rights::EXECUTE);
    mem.map(&[Region {
        start: 0x1000,
        len: 8,
        rights,
    }])?;
    mem.put(0x1000, &word.to_le_bytes())?;
    let mut x = [0; 32];
    x[5] = dividend;
    x[10] = divisor;
    let mut hart = Hart {
        x,
        pc: 0x1000,
        steps: 1,
    };
    let mut input = MemSource::new(Vec::new(alloc), Vec::new(alloc));
    let mut out = MemSink::new(alloc, 1, Vec::new(alloc))?;
    let _ = hart.step(&mut mem, &mut input, &mut out);
    Ok(hart.x[6])
}

#[test]
fn no_division_stops_the_processor(rt: HostRuntime) -> Result<(), Fail> {
    let least = 1 << 63;
    let rows = [
        // overflow: the dividend
        (DIV, least, u64::MAX, least),
        // overflow: 0
        (REM, least, u64::MAX, 0),
        // by zero: all ones
        (DIV, 7, 0, u64::MAX),
        // by zero: the dividend
        (REM, 7, 0, 7),
    ];
    for (word, dividend, divisor, want) in rows {
        assert_eq!(rt; result(rt.alloc(), word, dividend, divisor)?, want);
    }
    Ok(())
}
