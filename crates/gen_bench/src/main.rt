//! Reads a digit and a text from standard input, compiles the text's unit as many times as the digit says, and says how many words
//! of code it has, or its fault: what the benchmark of code generation times.
#![tactic(auto)]

ghost use Rattle.pw_tree.specs.Units.{unit_of};
ghost use Rattle.pw_tree.specs.WellTypedUnits.{IsWellTyped};

use pw_base::{Limits, Name, NoMemory};
use pw_code::{Item, Object};
use pw_front::front;
use pw_gen::object;
use pw_tree::TUnit;
use std::alloc::Global;
use std::io::{self, Read};

/// The bytes of standard input.
fn input<R: Input + AllocGlobal>(rt: &R) -> io::Result<Vec<u8>> {
    let mut bytes = Vec::new(rt.alloc());
    rt.reader().read_to_end(&mut bytes)?;
    Ok(bytes)
}

/// How many words items are.
fn words_of_items(items: &[Item]) -> u64 {
    let mut words: u64 = 0;
    for item in items {
        words = words.saturating_add(match item {
            Item::Word(_) => 1,
            Item::Addr { .. } => 2,
        });
    }
    words
}

/// How many words an object's functions are.
fn words_of(object: &Object) -> u64 {
    let mut words: u64 = 0;
    for f in object.funs.as_slice() {
        words = words.saturating_add(words_of_items(f.items.as_slice()));
    }
    words
}

/// Compiles a unit so many times: how many words of code it has, if it is compiled at all.
fn compile(alloc: Global, unit: &TUnit, name: &Name, times: u8) -> Result<u64, NoMemory>
    requires { IsWellTyped (unit_of unit.now) }
{
    let mut words = 0;
    for _ in 0..times {
        words = words_of(&object(alloc, unit, name)?);
    }
    Ok(words)
}

/// What there is to say of a text that is compiled so many times.
fn answer(alloc: Global, text: &[u8], times: u8) -> io::Result<String> {
    if text.len() as u64 > Limits::SOURCE_BYTES {
        return Ok(format!(in alloc; "too long")?);
    }
    let Ok(name) = Name::read(alloc, b"unit.c") else {
        return Ok(format!(in alloc; "out of memory")?);
    };
    match front(alloc, text) {
        Ok(unit) => match compile(alloc, &unit, &name, times) {
            Ok(words) => Ok(format!(in alloc; "{words} words")?),
            Err(_) => Ok(format!(in alloc; "out of memory")?),
        },
        Err(fault) => Ok(format!(in alloc; "{fault}")?),
    }
}

fn main(rt: HostRuntime) -> io::Result<()> {
    let bytes = input(&rt)?;
    let shown = match bytes.as_slice() {
        [digit, text @ ..] => answer(rt.alloc(), text, digit.saturating_sub(b'0'))?,
        [] => format!(in rt.alloc(); "no digit")?,
    };
    println!(rt; "{shown}")
}
