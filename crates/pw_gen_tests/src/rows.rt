//! The items of a statement, in words.

use crate::shown::items_of;
use crate::units::object_of;
use std::alloc::Global;
use std::process::Abort;
use std::test::Fail;

/// What stands before a statement: what it may name, and the function that it stands in.
const HEAD: &str =
    "extern long x; static long s; extern long arr[10]; static long mid[2048]; static long big[65536]; static fn1 p;\nextern long f(long a, long b); static long g(long n);\nlong t(long a, long b, unsigned long u, fn0 q0, fn2 q) { ";

/// And what stands after it.
const TAIL: &str = " }\nstatic long g(long n) { return n; }\n";

/// How many items stand before the body of that function: the check of the depth, its fault, the frame and five parameters.
const OPENS: usize = 13;

/// And how many behind it.
const CLOSES: usize = 5;

/// A statement, and its items.
pub(crate) type Row = (&'static str, &'static str);

/// The items of a statement.
fn code_of(rt: &impl Abort, alloc: Global, statement: &str) -> Result<String, Fail> {
    let text = format!(in alloc; "{HEAD}{statement}{TAIL}")?;
    let object = object_of(rt, alloc, text.as_str())?;
    let functions = object.funs.as_slice();
    assert!(rt; !functions.is_empty());
    let items = functions[0].items.as_slice();
    assert!(rt; items.len() >= OPENS + CLOSES);
    Ok(items_of(alloc, &items[OPENS..items.len() - CLOSES])?)
}

/// Each statement has the items that stand beside it.
pub(crate) fn agree(rt: &impl Abort, alloc: Global, rows: &[Row]) -> Result<(), Fail> {
    for (statement, items) in rows {
        assert_eq!(rt;
            code_of(rt, alloc, statement)?.as_str(),
            *items,
            "of {statement:?}"
        );
    }
    Ok(())
}
