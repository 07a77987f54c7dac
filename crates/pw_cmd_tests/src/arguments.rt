//! Command lines of every kind: which arguments are words, and what the program answers for them.
ghost use Rattle.std.specs.Prelude.{Some};
ghost use Rattle.pw_arguments.specs.Arguments.{bytes_of};

use pw_arguments::{Arguments, SystemArguments, WordsError, read_arguments, words_of};
use pw_base::{Name, NoMemory};
use pw_cmd::run;
use pw_io::{MemSink, MemSource, MemStore};
use pw_mem::FlatMemory;
use std::alloc::Global;
use std::env::{Env, FillError};
use std::test::Fail;

/// A program that writes one byte.
const TEXT: &[u8] = b"long main(void) { __out(97); return 0; }";

const USAGE: &[u8] = b"usage: pw COMMAND ARGUMENTS\n";

const ENDED: &[u8] = b"ended 0\n";

/// Arguments in memory, the program's name first.
#[derive(Drop)]
struct MemArguments {
    list: Vec<Vec<u8>>,
}

impl Arguments for MemArguments {
    ghost list = { λ arguments. Some (bytes_of arguments.list.items) };

    fn argument(&self, alloc: Global, number: usize) -> Result<Option<Vec<u8>>, NoMemory> {
        match self.list.get(number) {
            Some(bytes) => match Vec::from_slice(alloc, bytes.as_slice()) {
                Ok(copy) => Ok(Some(copy)),
                Err(_) => Err(NoMemory),
            },
            None => Ok(None),
        }
    }
}

/// Owned copies of arguments.
fn owned(alloc: Global, arguments: &[&[u8]]) -> Result<Vec<Vec<u8>>, Fail> {
    let mut list = Vec::new(alloc);
    for argument in arguments {
        list.push(Vec::from_slice(alloc, argument)?)?;
    }
    Ok(list)
}

/// The status of the program with these arguments, and what it wrote: the output, then the messages.
fn program(
    alloc: Global,
    arguments: &[&[u8]],
    fails: &[u64],
) -> Result<(u8, MemSink, MemSink), Fail> {
    let arguments = MemArguments {
        list: owned(alloc, arguments)?,
    };
    let mut files = Vec::new(alloc);
    files.push((Name::read(alloc, b"main.c")?, Vec::from_slice(alloc, TEXT)?))?;
    let mut store = MemStore::new(alloc, files, Vec::new(alloc));
    let mut input = MemSource::new(Vec::new(alloc), Vec::new(alloc));
    let mut out = MemSink::new(alloc, 64, Vec::new(alloc))?;
    let mut msg = MemSink::new(alloc, 64, Vec::from_slice(alloc, fails)?)?;
    let (status, _) = run(
        alloc,
        &arguments,
        &mut store,
        &mut input,
        &mut out,
        &mut msg,
        FlatMemory::new(alloc),
    );
    Ok((status, out, msg))
}

/// A command line, and what comes of it.
struct CommandLine {
    /// The arguments, the program's name first.
    arguments: &'static [&'static [u8]],
    /// The calls of the messages that fail, counted from 1.
    fails: &'static [u64],
    /// The status.
    status: u8,
    /// The output, and the messages.
    out: &'static [u8],
    msg: &'static [u8],
}

/// Command lines with a name that is no text, with too few arguments, and with arguments that are no text.
const LINES: [CommandLine; 8] = [
    CommandLine {
        arguments: &[b"pw", b"one", b"main.c"],
        fails: &[],
        status: 0,
        out: b"a",
        msg: ENDED,
    },
    CommandLine {
        arguments: &[b"\xff\xfe", b"one", b"main.c"],
        fails: &[],
        status: 0,
        out: b"a",
        msg: ENDED,
    },
    CommandLine {
        arguments: &[b"", b"one", b"main.c"],
        fails: &[],
        status: 0,
        out: b"a",
        msg: ENDED,
    },
    CommandLine {
        arguments: &[],
        fails: &[],
        status: 2,
        out: b"",
        msg: USAGE,
    },
    CommandLine {
        arguments: &[b"pw"],
        fails: &[],
        status: 2,
        out: b"",
        msg: USAGE,
    },
    CommandLine {
        arguments: &[b"pw", b"one", b"\xffmain.c"],
        fails: &[],
        status: 2,
        out: b"",
        msg: USAGE,
    },
    CommandLine {
        arguments: &[b"pw", b"one", b"main.c", b"\xc3"],
        fails: &[],
        status: 2,
        out: b"",
        msg: USAGE,
    },
    CommandLine {
        arguments: &[b"pw", b"\xff"],
        fails: &[4],
        status: 7,
        out: b"",
        msg: b"usa",
    },
];

#[test]
fn each_command_line_has_its_status(rt: HostRuntime) -> Result<(), Fail> {
    for line in &LINES {
        let (status, out, msg) = program(rt.alloc(), line.arguments, line.fails)?;
        assert!(rt; status == line.status);
        assert!(rt; out.written() == line.out);
        assert!(rt; msg.written() == line.msg);
    }
    Ok(())
}

#[test]
fn a_thousand_arguments_are_no_command(rt: HostRuntime) -> Result<(), Fail> {
    let many: [&[u8]; 1000] = [b"one"; 1000];
    let (status, _, msg) = program(rt.alloc(), &many, &[])?;
    assert!(rt; status == 2);
    assert!(rt; msg.written() == USAGE);
    Ok(())
}

#[test]
fn words_are_text_and_fewer_than_the_limit_with_fewer_bytes(rt: HostRuntime) -> Result<(), Fail> {
    let rows: [(&[&[u8]], bool); 9] = [
        // none
        (&[], true),
        // empty ones
        (&[b"", b""], true),
        // fewer than the limit
        (&[b"a", b"b"], true),
        // two bytes that are one character
        (&[b"\xc3\xa4"], true),
        // as many as the limit
        (&[b"", b"", b""], false),
        // as many bytes as the limit
        (&[b"abc"], false),
        // the bytes of all count together
        (&[b"ab", b"c"], false),
        // the first byte of a character alone
        (&[b"\xc3"], false),
        // a byte that no text has
        (&[b"a", b"\xff"], false),
    ];
    for (arguments, are_words) in rows {
        let list = owned(rt.alloc(), arguments)?;
        match words_of(rt.alloc(), list.as_slice(), 3) {
            Ok(words) => {
                assert!(rt; are_words);
                assert_eq!(rt; words.len(), arguments.len());
                for (word, argument) in words.iter().zip(arguments) {
                    assert_eq!(rt; word.as_bytes(), *argument);
                }
            }
            Err(error) => {
                assert!(rt; !are_words);
                assert_eq!(rt; error, WordsError::NoWords);
            }
        }
    }
    Ok(())
}

/// How many bytes the long argument of the system has.
const LONG: usize = 1000;

/// A system with a name that is no text, a long argument and an empty one.
struct System;

impl Env for System {
    fn arg(&self, i: usize, buf: &mut [u8]) -> Result<usize, FillError> {
        match i {
            0 => Err(FillError::TooLong),
            1 if buf.len() < LONG => Err(FillError::TooLong),
            1 => {
                for byte in buf.iter_mut().take(LONG) {
                    *byte = b'x';
                }
                Ok(LONG)
            }
            2 => Ok(0),
            _ => Err(FillError::NotPresent),
        }
    }

    fn var(&self, _name: &str, _buf: &mut [u8]) -> Result<usize, FillError> {
        Err(FillError::NotPresent)
    }

    fn var_at(&self, _i: usize, _buf: &mut [u8]) -> Result<usize, FillError> {
        Err(FillError::NotPresent)
    }
}

#[test]
fn the_arguments_of_the_system_are_read_from_number_1(rt: HostRuntime) -> Result<(), Fail> {
    let found = read_arguments(rt.alloc(), &SystemArguments::new(&System))?;
    assert_eq!(rt; found.len(), 2);
    assert_eq!(rt; found[0].len(), LONG);
    assert!(rt; found[0].iter().all(|byte| *byte == b'x'));
    assert_eq!(rt; found[1].len(), 0);
    Ok(())
}
