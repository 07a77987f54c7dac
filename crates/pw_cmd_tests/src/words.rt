//! Which words ask for which run.
use crate::command::{Expected, Given, NONE, ONE, answers};
use std::test::Fail;

/// Words, and the status for the program that does nothing.
const ROWS: [(&[&str], u8); 41] = [
    // the file alone
    (&["one", "main.c"], 0),
    // no words
    (&[], 2),
    // no file
    (&["one"], 2),
    // two files
    (&["one", "main.c", "main.c"], 2),
    // another command
    (&["two", "main.c"], 2),
    // a command in capitals
    (&["ONE", "main.c"], 2),
    // a command that begins like this one
    (&["one2", "main.c"], 2),
    // files that are no names
    (&["one", ""], 2),
    (&["one", "a b"], 2),
    (
        &[
            "one",
            "aaaaaaaaaaaaaaaaaaaaaaaaaaaaaaaaaaaaaaaaaaaaaaaaaaaaaaaaaaaaaaaa",
        ],
        2,
    ),
    // a name of 63 bytes
    (
        &[
            "one",
            "aaaaaaaaaaaaaaaaaaaaaaaaaaaaaaaaaaaaaaaaaaaaaaaaaaaaaaaaaaaaaaa",
        ],
        6,
    ),
    // a file that begins with a dash
    (&["one", "-x"], 2),
    (&["one", "--steps"], 2),
    (&["one", "--steps", "1", "-x"], 2),
    (&["one", "-x", "--steps", "1"], 2),
    // the option behind the file
    (&["one", "main.c", "--steps", "1"], 0),
    (&["one", "main.c", "--steps", "0"], 5),
    // the option before the file
    (&["one", "--steps", "1", "main.c"], 0),
    (&["one", "--steps", "0", "main.c"], 5),
    // ten digits
    (&["one", "main.c", "--steps", "0000000001"], 0),
    (&["one", "main.c", "--steps", "1000000000"], 0),
    // eleven digits
    (&["one", "main.c", "--steps", "00000000001"], 2),
    // too many steps
    (&["one", "main.c", "--steps", "1000000001"], 2),
    (&["one", "--steps", "9999999999", "main.c"], 2),
    // no number
    (&["one", "main.c", "--steps"], 2),
    (&["one", "--steps", "main.c"], 2),
    (&["one", "main.c", "--steps", ""], 2),
    (&["one", "--steps", "main.c", "1"], 2),
    // letters and signs
    (&["one", "main.c", "--steps", "1a"], 2),
    (&["one", "main.c", "--steps", "0x1"], 2),
    (&["one", "main.c", "--steps", "+1"], 2),
    (&["one", "main.c", "--steps", "-1"], 2),
    (&["one", "main.c", "--steps", " 1"], 2),
    // the characters before 0 and behind 9
    (&["one", "main.c", "--steps", "/"], 2),
    (&["one", "main.c", "--steps", ":"], 2),
    // another option
    (&["one", "main.c", "--step", "1"], 2),
    (&["one", "main.c", "-steps", "1"], 2),
    // the option twice
    (&["one", "--steps", "1", "--steps", "1", "main.c"], 2),
    (&["one", "--steps", "1", "main.c", "--steps", "1"], 2),
    // the option in one word
    (&["one", "main.c", "--steps=1"], 2),
    (&["one", "--steps=1", "main.c"], 2),
];

/// The line of a status.
fn line_of(status: u8) -> &'static [u8] {
    match status {
        0 => b"ended 0\n",
        2 => b"usage: pw COMMAND ARGUMENTS\n",
        5 => b"step bound spent\n",
        _ => b"read failed\n",
    }
}

#[test]
fn only_these_words_ask_for_a_run(rt: HostRuntime) -> Result<(), Fail> {
    for (words, status) in ROWS {
        let given = Given {
            words,
            text: b"long main(void) { return 0; }",
            input: b"",
            fails: NONE,
        };
        let answer = Expected {
            status,
            out: b"",
            msg: line_of(status),
            left: b"",
        };
        answers(&rt, rt.alloc(), given, answer)?;
    }
    Ok(())
}

/// Words with a text, the status and the line: a run that is given no bound takes 1,000,000 steps and no more, and the line of a
/// refusal names the file wherever it stands.
const TEXTS: [(&[&str], &[u8], u8, &[u8]); 4] = [
    (
        &ONE,
        b"long main(void) { while (1) { } return 0; }",
        5,
        b"step bound spent\n",
    ),
    (
        &ONE,
        b"long main(void) { for (long i = 0; i < 999999; i = i + 1) ; return 0; }",
        0,
        b"ended 0\n",
    ),
    (
        &["one", "--steps", "7", "main.c"],
        b"\n @",
        3,
        b"refused: main.c: bad byte at line 2 byte 2\n",
    ),
    (
        &["one", "main.c", "--steps", "7"],
        b"\n @",
        3,
        b"refused: main.c: bad byte at line 2 byte 2\n",
    ),
];

#[test]
fn the_words_are_those_of_the_run(rt: HostRuntime) -> Result<(), Fail> {
    for (words, text, status, msg) in TEXTS {
        let given = Given {
            words,
            text,
            input: b"",
            fails: NONE,
        };
        let answer = Expected {
            status,
            out: b"",
            msg,
            left: b"",
        };
        answers(&rt, rt.alloc(), given, answer)?;
    }
    Ok(())
}
