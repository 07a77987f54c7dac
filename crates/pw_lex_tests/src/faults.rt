//! Faults: each is the first in the text, named at its first byte and on its line.

use crate::rows::{Row, agree};
use std::test::Fail;

const EACH_FAULT_IS_NAMED_AT_ITS_FIRST_BYTE_AND_ON_ITS_LINE: [Row; 15] = [
    (b"/*", "open comment at line 1 byte 0", "nothing closes it"),
    (
        b"a\n /* b\n c",
        "open comment at line 2 byte 3",
        "the place of its first byte",
    ),
    (
        b"/*/",
        "open comment at line 1 byte 0",
        "one slash does not serve twice",
    ),
    (b"@", "bad byte at line 1 byte 0", "no token begins so"),
    (b"a\n\n  $", "bad byte at line 3 byte 5", "after line ends"),
    (b"\x80", "bad byte at line 1 byte 0", "no ASCII"),
    (b"a\0", "bad byte at line 1 byte 1", "a zero byte"),
    (b"\"s\"", "bad byte at line 1 byte 0", "no strings"),
    (b".", "bad byte at line 1 byte 0", "no members"),
    (b"#", "bad byte at line 1 byte 0", "no directives"),
    (
        b"/*\n*/\n`",
        "bad byte at line 3 byte 6",
        "lines of a comment count",
    ),
    (
        b"\r\n\r\n\\",
        "bad byte at line 3 byte 4",
        "a line ends at its line feed alone",
    ),
    (
        b"1 @ 08",
        "bad byte at line 1 byte 2",
        "the first of two faults",
    ),
    (
        b"@ /*",
        "bad byte at line 1 byte 0",
        "the first, before an open comment",
    ),
    (
        b"08 /* @",
        "bad number at line 1 byte 0",
        "the first, though it is a number's",
    ),
];

#[test]
fn each_fault_is_named_at_its_first_byte_and_on_its_line(rt: HostRuntime) -> Result<(), Fail> {
    agree(
        &rt,
        rt.alloc(),
        &EACH_FAULT_IS_NAMED_AT_ITS_FIRST_BYTE_AND_ON_ITS_LINE,
    )
}
