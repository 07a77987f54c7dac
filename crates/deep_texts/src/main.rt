//! Reads, copies and drops deep and long trees, types and compiles them where they have types, and refuses those that pass a
//! limit, in the stack that a program has.
#![tactic(auto)]

ghost use Rattle.pw_tree.specs.Units.{unit_of};
ghost use Rattle.pw_tree.specs.WellTypedUnits.{IsWellTyped};

use pw_base::Name;
use pw_code::Object;
use pw_front::front;
use pw_gen::object;
use pw_lex::tokens;
use pw_parse::parse;
use pw_tree::{TUnit, Unit};
use std::alloc::Global;
use std::io;

/// More bytes than each of the texts has.
const LONGEST: usize = 1 << 20;

/// A text of a function: what is repeated before the core, and what after it.
#[derive(Drop)]
struct Shape {
    name: &'static str,
    head: &'static [u8],
    open: &'static [u8],
    core: &'static [u8],
    close: &'static [u8],
    tail: &'static [u8],
    times: usize,
}

/// A value that is returned.
fn returned(
    name: &'static str,
    open: &'static [u8],
    core: &'static [u8],
    close: &'static [u8],
    times: usize,
) -> Shape {
    Shape {
        name,
        head: b"long a;long b;long c;long f(void){return ",
        open,
        core,
        close,
        tail: b";}",
        times,
    }
}

/// A statement.
fn done(name: &'static str, open: &'static [u8], times: usize) -> Shape {
    Shape {
        name,
        head: b"long a;long f(void){",
        open,
        core: b";",
        close: b"",
        tail: b"}",
        times,
    }
}

/// The shapes: deep or long, up to what a function may be, and beyond it.
fn shapes() -> [Shape; 18] {
    [
        returned("8,182 prefix operators", b"~", b"1", b"", 8182),
        returned("8,190 prefix operators", b"~", b"1", b"", 8190),
        returned("2,000 choices behind a colon", b"a?b:", b"c", b"", 2000),
        returned("2,000 choices behind a question", b"a?", b"b", b":c", 2000),
        returned("4,090 right operands", b"1+", b"1", b"", 4090),
        returned("8,000 right operands", b"1+", b"1", b"", 8000),
        returned("100 held values", b"1+(", b"1", b")", 100),
        returned("101 held values", b"1+(", b"1", b")", 101),
        returned("199 brackets in a body", b"(", b"1", b")", 199),
        returned("200 brackets in a body", b"(", b"1", b")", 200),
        returned("2,700 calls", b"", b"f", b"()", 2700),
        done("1,364 else ifs", b"if(a);else ", 1364),
        done("2,000 else ifs", b"if(a);else ", 2000),
        done("2,000 loops", b"while(a)", 2000),
        done("1,000 for loops", b"for(;;)", 1000),
        done("1,636 for loops", b"for(;;)", 1636),
        done("2,045 loops", b"while(a)", 2045),
        done("2,045 ifs", b"if(a)", 2045),
    ]
}

/// A piece joins a text this many times.
fn push_times(text: &mut Vec<u8>, times: usize, piece: &[u8]) -> io::Result<()> {
    for _ in 0..times {
        text.extend_from_slice(piece)?;
    }
    Ok(())
}

/// The text of a shape.
fn text<A: AllocGlobal>(rt: &A, shape: &Shape) -> io::Result<Vec<u8>> {
    let mut text = Vec::new(rt.alloc());
    text.extend_from_slice(shape.head)?;
    push_times(&mut text, shape.times, shape.open)?;
    text.extend_from_slice(shape.core)?;
    push_times(&mut text, shape.times, shape.close)?;
    text.extend_from_slice(shape.tail)?;
    Ok(text)
}

/// Parses the text of a shape and copies its tree: its last token, or its fault. Then types it, copies the typed tree, and
/// compiles it.
fn show<A: AllocGlobal>(rt: &A, shape: &Shape) -> io::Result<String> {
    let alloc = rt.alloc();
    let text = text(rt, shape)?;
    if text.len() > LONGEST {
        return Ok(format!(in alloc; "too long a text")?);
    }
    let Ok(tokens) = tokens(alloc, text.as_slice()) else {
        return Ok(format!(in alloc; "no tokens")?);
    };
    if tokens.len() > LONGEST {
        return Ok(format!(in alloc; "too many tokens")?);
    }
    let parsed = match parse(alloc, tokens.as_slice()) {
        Ok(unit) => copied(alloc, &unit)?,
        Err(fault) => format!(in alloc; "{fault:?}")?,
    };
    let typed = match front(alloc, text.as_slice()) {
        Ok(unit) => {
            let held = copied_types(alloc, &unit)?;
            let compiled = compiled(alloc, &unit)?;
            format!(in alloc; "{held}; {compiled}")?
        }
        Err(fault) => format!(in alloc; "{fault}")?,
    };
    Ok(format!(in alloc; "{parsed}; {typed}")?)
}

/// The last token of the copy of a unit.
fn copied(alloc: Global, unit: &Unit) -> io::Result<String> {
    match unit.copy(alloc) {
        Ok(copy) => match copy.decls.as_slice() {
            [] => Ok(format!(in alloc; "no declaration")?),
            [.., decl] => {
                let last = decl.last;
                Ok(format!(in alloc; "read to token {last}")?)
            }
        },
        Err(_) => Ok(format!(in alloc; "no memory")?),
    }
}

/// How many values the last function of the copy of a typed unit holds.
fn copied_types(alloc: Global, unit: &TUnit) -> io::Result<String> {
    match unit.copy(alloc) {
        Ok(copy) => match copy.funs.as_slice() {
            [] => Ok(format!(in alloc; "no function")?),
            [.., fun] => {
                let held = fun.held;
                Ok(format!(in alloc; "typed, holding {held}")?)
            }
        },
        Err(_) => Ok(format!(in alloc; "no memory")?),
    }
}

/// What a unit is compiled to.
fn compiled(alloc: Global, unit: &TUnit) -> io::Result<String>
    requires { IsWellTyped (unit_of unit.now) }
{
    let Ok(name) = Name::read(alloc, b"deep.c") else {
        return Ok(format!(in alloc; "no memory")?);
    };
    match object(alloc, unit, &name) {
        Ok(object) => last_items(alloc, &object),
        Err(_) => Ok(format!(in alloc; "no memory")?),
    }
}

/// How many items the last function of an object has.
fn last_items(alloc: Global, object: &Object) -> io::Result<String> {
    match object.funs.as_slice() {
        [] => Ok(format!(in alloc; "no function")?),
        [.., fun] => {
            let items = fun.items.len();
            Ok(format!(in alloc; "{items} items")?)
        }
    }
}

fn main(rt: HostRuntime) -> io::Result<()> {
    for shape in &shapes() {
        let name = shape.name;
        let shown = show(&rt, shape)?;
        println!(rt; "{name}: {shown}")?;
    }
    Ok(())
}
