//! Runs a command over ports in memory, whose calls fail where a test says so.
use pw_base::Name;
use pw_cmd::top;
use pw_io::{MemSink, MemSource, MemStore};
use pw_mem::{FlatMemory, Memory};
use std::alloc::Global;
use std::process::Abort;
use std::test::Fail;

/// The words that ask for the file main.c.
pub const ONE: [&str; 2] = ["one", "main.c"];

/// The numbers of the calls of each port that are to fail, from 1.
#[derive(Clone, Copy)]
pub struct FailingCalls<'a> {
    pub store: &'a [u64],
    pub input: &'a [u64],
    pub out: &'a [u64],
    pub msg: &'a [u64],
}

/// No call fails.
pub const NONE: FailingCalls<'static> = FailingCalls {
    store: &[],
    input: &[],
    out: &[],
    msg: &[],
};

/// What a command is given: its words, the text of the file main.c, the bytes of the input, and the calls that fail.
#[derive(Clone, Copy)]
pub struct Given<'a> {
    pub words: &'a [&'a str],
    pub text: &'a [u8],
    pub input: &'a [u8],
    pub fails: FailingCalls<'a>,
}

/// What a command answers: its status, its output, its message, and what it leaves of the input.
#[derive(Clone, Copy)]
pub struct Expected<'a> {
    pub status: u8,
    pub out: &'a [u8],
    pub msg: &'a [u8],
    pub left: &'a [u8],
}

/// What a command answered and left.
#[derive(Drop)]
pub struct Seen<M> {
    pub status: u8,
    pub input: MemSource,
    pub out: MemSink,
    pub msg: MemSink,
    pub mem: M,
}

/// Runs the command over a store with the one file main.c.
pub fn run<M: Memory + Drop>(alloc: Global, given: Given, mem: M) -> Result<Seen<M>, Fail> {
    let mut words = Vec::new(alloc);
    for word in given.words {
        words.push(String::from_str(alloc, word)?)?;
    }
    let fails = given.fails;
    let mut files = Vec::new(alloc);
    files.push((
        Name::read(alloc, b"main.c")?,
        Vec::from_slice(alloc, given.text)?,
    ))?;
    let mut store = MemStore::new(alloc, files, Vec::from_slice(alloc, fails.store)?);
    let mut input = MemSource::new(
        Vec::from_slice(alloc, given.input)?,
        Vec::from_slice(alloc, fails.input)?,
    );
    let mut out = MemSink::new(alloc, 64, Vec::from_slice(alloc, fails.out)?)?;
    let mut msg = MemSink::new(alloc, 128, Vec::from_slice(alloc, fails.msg)?)?;
    let (status, mem) = top(
        alloc,
        words.as_slice(),
        &mut store,
        &mut input,
        &mut out,
        &mut msg,
        mem,
    );
    Ok(Seen {
        status,
        input,
        out,
        msg,
        mem,
    })
}

/// FailingCalls where the command answers otherwise.
pub fn answers(rt: &impl Abort, alloc: Global, given: Given, answer: Expected) -> Result<(), Fail> {
    let seen = run(alloc, given, FlatMemory::new(alloc))?;
    assert_eq!(rt; seen.msg.written(), answer.msg);
    assert_eq!(rt; seen.status, answer.status);
    assert_eq!(rt; seen.out.written(), answer.out);
    assert_eq!(rt; seen.input.left(), answer.left);
    Ok(())
}
