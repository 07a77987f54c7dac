//! What a command leaves of the memory: the words of the functions that are kept, zeros in place of the others, the addresses that
//! the run fetched from; and all that was there where nothing ran.
use crate::command::{FailingCalls, Given, NONE, ONE, run};
use crate::programs::COUNT;
use pw_hart::Hart;
use pw_io::{MemSink, MemSource};
use pw_mem::{FlatMemory, Memory, Recorder, Region, Rights};
use std::alloc::Global;
use std::process::Abort;
use std::test::Fail;

/// A program of two functions, one of which is never called.
const TWO: &[u8] = b"long dead(void) { return 7; }\n\
      long main(void) {\n\
      \x20 __out(72);\n\
      \x20 __out(105);\n\
      \x20 return 0;\n\
      }\n";

/// A static function is called.
const CALL: &[u8] = b"static long h(void) { return 3; }\nlong main(void) { return h(); }";

/// A variable points to a function.
const POINTER: &[u8] = b"static long cb(void) { return 5; }\n\
      fn0 hook = cb;\n\
      long main(void) { return 0; }";

/// Functions that lead to one another, from `main` and from a variable, and two to which nothing leads.
const TREE: &[u8] = b"long a(void) { return 1; }\n\
      static long b(long n) { return n ? b(n - 1) : a(); }\n\
      long idle(void) { return a(); }\n\
      static long c(long n) { return n; }\n\
      long d(long n) { return c(n); }\n\
      fn1 table[3] = {d};\n\
      long e(void) { return d(1) + table[0](2); }\n\
      long main(void) { return b(2); }";

/// Programs, and words that stand from an address on once they ran.
const WORDS: [(&[u8], u64, &[u64]); 20] = [
    // the entry
    (
        TWO,
        0x500_0000,
        &[
            0x3e80_0493,
            0x0100_0297,
            0xffc2_b283,
            0x0002_80e7,
            0x05d0_0893,
            0x0000_0073,
        ],
    ),
    // a function that is never called
    (TWO, 0x500_0018, &[0; 15]),
    // `main`
    (
        TWO,
        0x500_0054,
        &[
            0x0004_9a63,
            0x0040_0513,
            0x0020_0593,
            0x4020_0893,
            0x0000_0073,
            0xfff4_8493,
            0xff01_0113,
            0x0011_3023,
            0x0480_0513,
            0x4010_0893,
            0x0000_0073,
            0x0690_0513,
            0x4010_0893,
            0x0000_0073,
            0x0000_0513,
            0x0080_006f,
            0x0000_0513,
            0x0001_3083,
            0x0101_0113,
            0x0014_8493,
            0x0000_8067,
        ],
    ),
    // the slot of `main`
    (TWO, 0x600_0000, &[0x0500_0054, 0x0000_0000]),
    // a static function that is called
    (
        CALL,
        0x500_0018,
        &[
            0x0004_9a63,
            0x0040_0513,
            0x0010_0593,
            0x4020_0893,
            0x0000_0073,
            0xfff4_8493,
            0xff01_0113,
            0x0011_3023,
            0x0030_0513,
            0x0080_006f,
            0x0000_0513,
            0x0001_3083,
            0x0101_0113,
            0x0014_8493,
            0x0000_8067,
        ],
    ),
    // its call, by the distance to it
    (CALL, 0x500_0074, &[0x0000_0297, 0xfa42_8293, 0x0002_80e7]),
    // a function to which a variable points, and which nothing calls
    (
        POINTER,
        0x500_0018,
        &[
            0x0004_9a63,
            0x0040_0513,
            0x0010_0593,
            0x4020_0893,
            0x0000_0073,
            0xfff4_8493,
            0xff01_0113,
            0x0011_3023,
            0x0050_0513,
            0x0080_006f,
            0x0000_0513,
            0x0001_3083,
            0x0101_0113,
            0x0014_8493,
            0x0000_8067,
        ],
    ),
    // the slot of `main`, and the variable
    (
        POINTER,
        0x600_0000,
        &[0x0500_0054, 0x0000_0000, 0x0500_0018, 0x0000_0000],
    ),
    // the first and the last word of `a`
    (TREE, 0x500_0018, &[0x0004_9a63]),
    (TREE, 0x500_0050, &[0x0000_8067]),
    // the first and the last word of `b`
    (TREE, 0x500_0054, &[0x0004_9a63]),
    (TREE, 0x500_00d0, &[0x0000_8067]),
    // `idle`, which nothing that is kept names
    (TREE, 0x500_00d4, &[0; 17]),
    // the first and the last word of `c`
    (TREE, 0x500_0118, &[0x0004_9a63]),
    (TREE, 0x500_0154, &[0x0000_8067]),
    // the first and the last word of `d`
    (TREE, 0x500_0158, &[0x0004_9a63]),
    (TREE, 0x500_01a8, &[0x0000_8067]),
    // `e`, which nothing that is kept names
    (TREE, 0x500_01ac, &[0; 45]),
    // the first and the last word of `main`
    (TREE, 0x500_0260, &[0x0004_9a63]),
    (TREE, 0x500_02ac, &[0x0000_8067]),
];

/// FailingCalls where the memory holds other words from this address on.
fn holds(rt: &impl Abort, mem: &FlatMemory, at: u64, words: &[u64]) {
    let mut place = at;
    for word in words {
        assert_eq!(rt; mem.load(place, 4), Ok(*word), "at {place:x}");
        place = place.wrapping_add(4);
    }
}

#[test]
fn only_what_the_program_can_reach_is_in_memory(rt: HostRuntime) -> Result<(), Fail> {
    for (text, at, words) in WORDS {
        let given = Given {
            words: &ONE,
            text,
            input: b"",
            fails: NONE,
        };
        let seen = run(rt.alloc(), given, FlatMemory::new(rt.alloc()))?;
        holds(&rt, &seen.mem, at, words);
    }
    Ok(())
}

/// The addresses that a run from the entry fetches from, noted before each step of a processor of its own.
fn addresses(alloc: Global, input: &[u8], mut mem: FlatMemory) -> Result<Vec<u64>, Fail> {
    let mut x = [0; 32];
    x[2] = 0x1_0020_0000;
    let mut hart = Hart {
        x,
        pc: 0x500_0000,
        steps: 1_000_000,
    };
    let mut input = MemSource::new(Vec::from_slice(alloc, input)?, Vec::new(alloc));
    let mut out = MemSink::new(alloc, 64, Vec::new(alloc))?;
    let mut list = Vec::new(alloc);
    for _ in 0..1000 {
        list.push(hart.pc)?;
        if hart.step(&mut mem, &mut input, &mut out).is_some() {
            break;
        }
    }
    Ok(list)
}

#[test]
fn the_memory_reports_the_addresses_of_the_run(rt: HostRuntime) -> Result<(), Fail> {
    let alloc = rt.alloc();
    let rows: [(&[u8], &[u8], usize); 2] = [(TWO, b"", 22), (COUNT, b"Hello, Piece World", 973)];
    for (text, input, fetches) in rows {
        let given = Given {
            words: &ONE,
            text,
            input,
            fails: NONE,
        };
        let reported = run(alloc, given, Recorder::new(alloc)?)?;
        let quiet = run(alloc, given, FlatMemory::new(alloc))?;
        let noted = addresses(alloc, input, quiet.mem)?;
        assert_eq!(rt; noted.len(), fetches);
        assert_eq!(rt; reported.mem.reported(), Some(noted.as_slice()));
    }
    Ok(())
}

/// Words, a text and calls that fail, so that nothing runs.
const IDLE: [(&[&str], &[u8], FailingCalls); 6] = [
    (&["one"], TWO, NONE),
    (
        &ONE,
        TWO,
        FailingCalls {
            store: &[1],
            ..NONE
        },
    ),
    (&ONE, b"@", NONE),
    (&ONE, b"long main(void) { return x; }", NONE),
    (&ONE, b"", NONE),
    (&ONE, b"extern long x; long main(void) { return x; }", NONE),
];

#[test]
fn where_nothing_runs_the_memory_is_as_before(rt: HostRuntime) -> Result<(), Fail> {
    for (words, text, fails) in IDLE {
        let given = Given {
            words,
            text,
            input: b"",
            fails,
        };
        let mut mem = FlatMemory::new(rt.alloc());
        mem.map(&[Region {
            start: 0x500_0000,
            len: 8,
            rights: Rights::READ | Rights::EXECUTE,
        }])?;
        mem.put(0x500_0000, &[1, 2, 3, 4, 5, 6, 7, 8])?;
        let seen = run(rt.alloc(), given, mem)?;
        assert!(rt; seen.status > 1);
        assert_eq!(rt; seen.mem.load(0x500_0000, 8), Ok(0x0807_0605_0403_0201));
    }
    Ok(())
}
