//! The items of a statement's expression, in words.

use crate::first::first_code;
use pw_code::Item;
use pw_front::front;
use pw_tree::Ref;
use std::alloc::{AllocError, Global};
use std::process::Abort;
use std::test::Fail;

/// What stands before a statement: what it may name, and the function that it stands in.
const HEAD: &str =
    "extern long x; static long s; extern long arr[10]; static long mid[2048]; static long big[65536]; static fn1 p;\nextern long f(long a, long b); extern long six(long a, long b, long c, long d, long e, long f); static long g(long n);\nvoid t(long a, long b, unsigned long u, fn0 q0, fn2 q) { ";

/// And what stands after it.
const TAIL: &str = " }\nstatic long g(long n) { return n; }\n";

/// A symbol: an external name, or the number of a static definition.
fn push_symbol(alloc: Global, out: &mut String, symbol: &Ref) -> Result<(), AllocError> {
    match symbol {
        Ref::Global(name) => {
            for byte in name.bytes() {
                out.push(char::from(*byte))?;
            }
            Ok(())
        }
        Ref::LocalFun(number) => out.push_str(format!(in alloc; "f{number}")?.as_str()),
        Ref::LocalVar(number) => out.push_str(format!(in alloc; "v{number}")?.as_str()),
    }
}

/// An item: an instruction word in hexadecimal, or a register and a symbol.
fn push_item(alloc: Global, out: &mut String, item: &Item) -> Result<(), AllocError> {
    match item {
        Item::Word(word) => out.push_str(format!(in alloc; "{word:08x}")?.as_str()),
        Item::Addr { rd, to } => {
            out.push_str(format!(in alloc; "{rd}=")?.as_str())?;
            push_symbol(alloc, out, to)
        }
    }
}

/// Items, each after a blank.
pub(crate) fn shown(alloc: Global, items: &[Item]) -> Result<String, AllocError> {
    let mut out = String::new(alloc);
    for item in items {
        if !out.is_empty() {
            out.push_str(" ")?;
        }
        push_item(alloc, &mut out, item)?;
    }
    Ok(out)
}

/// The code of a statement that is an expression.
pub(crate) fn code_of(rt: &impl Abort, alloc: Global, statement: &str) -> Result<Vec<Item>, Fail> {
    let text = format!(in alloc; "{HEAD}{statement}{TAIL}")?;
    assert!(rt; text.len() < 100_000);
    let unit = front(alloc, text.as_bytes())?;
    Ok(first_code(alloc, &unit)?)
}

/// A statement, and its items.
pub(crate) type Row = (&'static str, &'static str);

/// Each statement has the items that stand beside it.
pub(crate) fn agree(rt: &impl Abort, alloc: Global, rows: &[Row]) -> Result<(), Fail> {
    for (statement, items) in rows {
        let code = code_of(rt, alloc, statement)?;
        assert_eq!(rt;
            shown(alloc, code.as_slice())?.as_str(),
            *items,
            "in {statement:?}"
        );
    }
    Ok(())
}
