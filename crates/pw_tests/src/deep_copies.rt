//! A unit about as deep as a function may be is copied, and both are dropped, within the stack of a compiled program. An
//! interpreted run has less: there the test of expressions runs out of it.

use pw_lex::tokens;
use pw_parse::parse;
use pw_tree::{DeclKind, Unit};
use std::alloc::{AllocError, Global};
use std::process::Abort;
use std::test::Fail;

/// A function whose body is one statement, which nests: what is repeated before the core, and what after it.
#[derive(Clone, Copy)]
struct Deep {
    head: &'static [u8],
    open: &'static [u8],
    core: &'static [u8],
    close: &'static [u8],
    tail: &'static [u8],
    times: usize,
    /// The statement's last token, as an independent model of the language gives it.
    last: u32,
}

/// A value that is returned.
fn returned(
    open: &'static [u8],
    core: &'static [u8],
    close: &'static [u8],
    times: usize,
    last: u32,
) -> Deep {
    Deep {
        head: b"long f(void){return ",
        open,
        core,
        close,
        tail: b";}",
        times,
        last,
    }
}

/// Statements, each in the one before it.
fn done(open: &'static [u8], close: &'static [u8], times: usize, last: u32) -> Deep {
    Deep {
        head: b"long f(void){",
        open,
        core: b";",
        close,
        tail: b"}",
        times,
        last,
    }
}

/// Prefix operators, choices after a colon and after a question mark, right operands, brackets and calls.
fn expressions() -> [Deep; 6] {
    [
        returned(b"-~", b"1", b"", 4000, 8008),
        returned(b"a?b:", b"c", b"", 2000, 8008),
        returned(b"a?", b"b", b":c", 2000, 8008),
        returned(b"1+", b"1", b"", 4000, 8008),
        returned(b"(", b"1", b")", 199, 406),
        returned(b"", b"f", b"()", 2700, 5408),
    ]
}

/// Statements of each form that holds statements.
fn statements() -> [Deep; 6] {
    [
        done(b"if(a);else ", b"", 1300, 7806),
        done(b"if(a)", b"else;", 1300, 7806),
        done(b"while(a)", b"", 1300, 5206),
        done(b"do ", b"while(a);", 1300, 7806),
        done(b"for(;;)", b"", 1300, 6506),
        done(b"{", b"}", 199, 404),
    ]
}

/// The piece, so many times.
fn repeated(alloc: Global, piece: &[u8], times: usize) -> Result<Vec<u8>, AllocError> {
    let mut text = Vec::new(alloc);
    for _ in 0..times {
        text.extend_from_slice(piece)?;
    }
    Ok(text)
}

/// The text of the function.
fn text_of(alloc: Global, deep: &Deep) -> Result<Vec<u8>, AllocError> {
    let mut text = Vec::new(alloc);
    text.extend_from_slice(deep.head)?;
    text.extend_from_slice(repeated(alloc, deep.open, deep.times)?.as_slice())?;
    text.extend_from_slice(deep.core)?;
    text.extend_from_slice(repeated(alloc, deep.close, deep.times)?.as_slice())?;
    text.extend_from_slice(deep.tail)?;
    Ok(text)
}

/// The unit of a text.
fn read(rt: &impl Abort, alloc: Global, text: &[u8]) -> Result<Unit, Fail> {
    assert!(rt; text.len() < 100000);
    let tokens = tokens(alloc, text)?;
    assert!(rt; tokens.len() < 100000);
    Ok(parse(alloc, tokens.as_slice())?)
}

/// The first and the last token of the only statement of the only function.
fn extent(unit: &Unit) -> Option<(u32, u32)> {
    let [decl] = unit.decls.as_slice() else {
        return None;
    };
    let DeclKind::Fun(_, _, body) = &decl.kind else {
        return None;
    };
    match body.as_slice() {
        [stmt] => Some((stmt.first, stmt.last)),
        _ => None,
    }
}

/// Copies the unit of each text: both have the statement, and both are dropped.
fn copied(rt: &impl Abort, alloc: Global, texts: &[Deep]) -> Result<(), Fail> {
    for deep in texts {
        let (times, open) = (deep.times, deep.open);
        let text = text_of(alloc, deep)?;
        let unit = read(rt, alloc, text.as_slice())?;
        let copy = unit.copy(alloc)?;
        let expected = Some((6, deep.last));
        assert_eq!(rt; extent(&unit), expected, "{times} times {open:?}");
        assert_eq!(rt; extent(&copy), expected, "{times} times {open:?}");
        assert_eq!(rt; copy.lines.as_slice(), unit.lines.as_slice());
    }
    Ok(())
}

#[test]
fn a_deep_expression_is_copied_and_dropped(rt: HostRuntime) -> Result<(), Fail> {
    copied(&rt, rt.alloc(), &expressions())
}

#[test]
fn a_deep_statement_is_copied_and_dropped(rt: HostRuntime) -> Result<(), Fail> {
    copied(&rt, rt.alloc(), &statements())
}
