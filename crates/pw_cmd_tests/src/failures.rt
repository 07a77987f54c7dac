//! What a command answers where a call of a port fails, and what it wrote before.
use crate::command::{Expected, FailingCalls, Given, NONE, ONE, answers};
use crate::programs::{COPY, COUNT};
use std::test::Fail;

/// A program that writes three bytes.
const ABC: &[u8] = b"long main(void) { __out(97); __out(98); __out(99); return 0; }";

/// A program that writes a byte, and divides by one that it takes.
const FAULT: &[u8] = b"long main(void) { __out(97); return 1 / __in(); }";

/// A program that writes without end.
const LOOP: &[u8] = b"long main(void) { while (1) __out(46); return 0; }";

/// A text that is refused.
const NO: &[u8] = b"long f(void) { return 0; }";

/// The words, the text, the bytes of the input and the calls that fail; then the status, the output, the message, and the bytes
/// of the input that are left.
const ROWS: [(&[&str], &[u8], &[u8], FailingCalls, u8, &[u8], &[u8], &[u8]); 17] = [
    // the read fails
    (
        &["one", "main.c"],
        ABC,
        b"",
        FailingCalls {
            store: &[1],
            ..NONE
        },
        6,
        b"",
        b"read failed\n",
        b"",
    ),
    // a file that is not there
    (
        &["one", "other.c"],
        ABC,
        b"",
        NONE,
        6,
        b"",
        b"read failed\n",
        b"",
    ),
    // the first byte of the input fails
    (
        &["one", "main.c"],
        COPY,
        b"xyz",
        FailingCalls {
            input: &[1],
            ..NONE
        },
        6,
        b"",
        b"read failed\n",
        b"xyz",
    ),
    // the third fails: two were written
    (
        &["one", "main.c"],
        COPY,
        b"xyz",
        FailingCalls {
            input: &[3],
            ..NONE
        },
        6,
        b"xy",
        b"read failed\n",
        b"z",
    ),
    // its end fails
    (
        &["one", "main.c"],
        COPY,
        b"xyz",
        FailingCalls {
            input: &[4],
            ..NONE
        },
        6,
        b"xyz",
        b"read failed\n",
        b"",
    ),
    // the first byte of the output fails
    (
        &["one", "main.c"],
        ABC,
        b"",
        FailingCalls { out: &[1], ..NONE },
        7,
        b"",
        b"write failed\n",
        b"",
    ),
    // the third fails
    (
        &["one", "main.c"],
        ABC,
        b"",
        FailingCalls { out: &[3], ..NONE },
        7,
        b"ab",
        b"write failed\n",
        b"",
    ),
    // the flush fails
    (
        &["one", "main.c"],
        ABC,
        b"",
        FailingCalls { out: &[4], ..NONE },
        7,
        b"abc",
        b"write failed\n",
        b"",
    ),
    // the flush after a checked fault fails
    (
        &["one", "main.c"],
        FAULT,
        b"\x00z",
        FailingCalls { out: &[2], ..NONE },
        7,
        b"a",
        b"write failed\n",
        b"z",
    ),
    // the flush after the last step fails
    (
        &["one", "main.c", "--steps", "1"],
        LOOP,
        b"",
        FailingCalls { out: &[2], ..NONE },
        7,
        b".",
        b"write failed\n",
        b"",
    ),
    // a byte of the output fails before one of the input
    (
        &["one", "main.c"],
        COPY,
        b"xyz",
        FailingCalls {
            input: &[3],
            out: &[2],
            ..NONE
        },
        7,
        b"x",
        b"write failed\n",
        b"z",
    ),
    // the third byte of the line fails
    (
        &["one", "main.c"],
        ABC,
        b"",
        FailingCalls { msg: &[3], ..NONE },
        7,
        b"abc",
        b"en",
        b"",
    ),
    // the flush of the line fails
    (
        &["one", "main.c"],
        ABC,
        b"",
        FailingCalls { msg: &[9], ..NONE },
        7,
        b"abc",
        b"ended 0\n",
        b"",
    ),
    // the line of a failed read fails too
    (
        &["one", "main.c"],
        ABC,
        b"",
        FailingCalls {
            store: &[1],
            msg: &[6],
            ..NONE
        },
        7,
        b"",
        b"read ",
        b"",
    ),
    // the line of a failed write fails too
    (
        &["one", "main.c"],
        ABC,
        b"",
        FailingCalls {
            out: &[2],
            msg: &[1],
            ..NONE
        },
        7,
        b"a",
        b"",
        b"",
    ),
    // the line of a refusal fails
    (
        &["one", "main.c"],
        NO,
        b"",
        FailingCalls { msg: &[10], ..NONE },
        7,
        b"",
        b"refused: ",
        b"",
    ),
    // the line of usage fails
    (
        &["one"],
        ABC,
        b"",
        FailingCalls { msg: &[7], ..NONE },
        7,
        b"",
        b"usage:",
        b"",
    ),
];

#[test]
fn each_failure_has_its_status(rt: HostRuntime) -> Result<(), Fail> {
    for (words, text, input, fails, status, out, msg, left) in ROWS {
        let given = Given {
            words,
            text,
            input,
            fails,
        };
        let answer = Expected {
            status,
            out,
            msg,
            left,
        };
        answers(&rt, rt.alloc(), given, answer)?;
    }
    Ok(())
}

/// What the program is given that counts letters.
const INPUT: &[u8] = b"Hello, Piece World";

#[test]
fn no_byte_of_the_input_fails_unseen(rt: HostRuntime) -> Result<(), Fail> {
    for taken in 0..=INPUT.len() {
        let fails = FailingCalls {
            input: &[taken as u64 + 1],
            ..NONE
        };
        let given = Given {
            words: &ONE,
            text: COUNT,
            input: INPUT,
            fails,
        };
        let answer = Expected {
            status: 6,
            out: b"",
            msg: b"read failed\n",
            left: &INPUT[taken..],
        };
        answers(&rt, rt.alloc(), given, answer)?;
    }
    Ok(())
}
