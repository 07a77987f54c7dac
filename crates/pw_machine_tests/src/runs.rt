//! A run with its input and output: where it ends, how far it comes, and what it puts. The values come from an
//! independent model of the machine.

use crate::machine::{AT, hart, memory};
use pw_hart::End;
use pw_io::{MemSink, MemSource};
use std::test::Fail;

/// `li a7, 1024; ecall; li a7, 1025; ecall; li a7, 1024; ecall; li a7, 93; ecall`: a program that takes a byte, puts it,
/// takes another and exits with it.
const ECHO: [u8; 32] = [
    0x93, 0x08, 0x00, 0x40, 0x73, 0, 0, 0, 0x93, 0x08, 0x10, 0x40, 0x73, 0, 0, 0, 0x93, 0x08, 0x00,
    0x40, 0x73, 0, 0, 0, 0x93, 0x08, 0xd0, 0x05, 0x73, 0, 0, 0,
];

#[test]
fn a_run_takes_input_and_puts_output(rt: HostRuntime) -> Result<(), Fail> {
    // the limit, the calls of the input and of the output that fail, the end, the instructions carried out and the bytes
    // put
    let table: [(u64, u64, u64, End, u64, usize); 7] = [
        // the second byte is the end of the input, which is all ones
        (100, 0, 0, End::Exit(u64::MAX), 7, 1),
        // the limit is as long as the run
        (8, 0, 0, End::Exit(u64::MAX), 7, 1),
        // one instruction fewer
        (7, 0, 0, End::Limit, 7, 1),
        // no instruction at all
        (0, 0, 0, End::Limit, 0, 0),
        // the first call of the input fails
        (100, 1, 0, End::ReadFault, 1, 0),
        // the second does, after the byte was put
        (100, 2, 0, End::ReadFault, 5, 1),
        // the first call of the output fails
        (100, 0, 1, End::WriteFault, 3, 0),
    ];
    for (limit, bad_input, bad_out, want, instructions, put) in table {
        let mut mem = memory(rt.alloc(), &ECHO)?;
        let mut input = MemSource::new(b"h".to_vec(rt.alloc())?, [bad_input].to_vec(rt.alloc())?);
        let mut out = MemSink::new(rt.alloc(), 4, [bad_out].to_vec(rt.alloc())?)?;
        let mut hart = hart(0, 0, 0, 0, 0);
        let end = hart.run(&mut mem, &mut input, &mut out, limit);
        assert_eq!(rt;
            end,
            want,
            "limit {limit}, failing {bad_input} and {bad_out}"
        );
        assert_eq!(rt; hart.pc, AT + 4 * instructions, "limit {limit}");
        assert_eq!(rt; out.written().len(), put, "limit {limit}");
    }
    Ok(())
}
