//! Deep and long expressions: their first and last token and the token after them, counted from the expression's first.
//! Each is what a statement assigns, as deep or as long as a function may hold.
use crate::assigned::{AFTER, BEFORE, TOKENS_BEFORE, assigned};
use crate::parsed::parsed;
use pw_tree::Unit;
use std::alloc::{AllocError, Global};
use std::process::Abort;
use std::test::Fail;

/// How many pieces stand before and after the core; the pieces before, the core, the pieces after; and the extent.
type Row = (
    usize,
    &'static [u8],
    &'static [u8],
    &'static [u8],
    (u32, u32, u32),
);

/// A piece joins a text this many times.
fn push_times(text: &mut Vec<u8>, times: usize, piece: &[u8]) -> Result<(), AllocError> {
    for _ in 0..times {
        text.extend_from_slice(piece)?;
    }
    Ok(())
}

/// The text of a unit with a row's expression.
fn text(alloc: Global, row: &Row) -> Result<Vec<u8>, AllocError> {
    let (times, open, core, close, _) = *row;
    let mut text = Vec::new(alloc);
    text.extend_from_slice(BEFORE)?;
    push_times(&mut text, times, open)?;
    text.extend_from_slice(core)?;
    push_times(&mut text, times, close)?;
    text.extend_from_slice(AFTER)?;
    Ok(text)
}

/// The extent of the expression.
fn extent(unit: &Unit) -> (u32, u32, u32) {
    match assigned(unit) {
        Some((value, end)) => (
            value.first.saturating_sub(TOKENS_BEFORE),
            value.last.saturating_sub(TOKENS_BEFORE),
            end.saturating_sub(TOKENS_BEFORE),
        ),
        None => (0, 0, 0),
    }
}

/// Each expression has its extent.
fn agree(rt: &impl Abort, alloc: Global, rows: &[Row]) -> Result<(), Fail> {
    for row in rows {
        let unit = parsed(rt, alloc, text(alloc, row)?.as_slice())??;
        assert_eq!(rt; extent(&unit), row.4);
    }
    Ok(())
}

const EXPRESSIONS_STAND_DEEP_AND_LONG: [Row; 8] = [
    // choices to the right
    (2000, b"a?a:", b"a", b"", (0, 8000, 8001)),
    // choices in one another
    (2000, b"a?", b"a", b":a", (0, 8000, 8001)),
    // prefix operators
    (8181, b"- ", b"5", b"", (0, 8181, 8182)),
    // operands in a row
    (4090, b"a+", b"a", b"", (0, 8180, 8181)),
    // brackets
    (199, b"(", b"a", b")", (199, 199, 399)),
    // calls in arguments
    (199, b"f(a,", b"a", b")", (0, 995, 996)),
    // indices under `-`
    (199, b"-a[", b"a", b"]", (0, 796, 797)),
    // calls of what calls give
    (2700, b"", b"a", b"()", (0, 5400, 5401)),
];

#[test]
fn expressions_stand_deep_and_long(rt: HostRuntime) -> Result<(), Fail> {
    agree(&rt, rt.alloc(), &EXPRESSIONS_STAND_DEEP_AND_LONG)
}
