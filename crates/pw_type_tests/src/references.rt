//! What a name means where it is used.

use crate::answer::{Row, push_bytes, typed};
use pw_tree::{Ref, TKind, TStmt, TUnit};
use std::alloc::{AllocError, Global};
use std::test::Fail;

/// A text, and what the name means that its last function returns or calls.
const MEANT: [Row; 11] = [
    // the inner of two locals
    (
        "long w; long x; long main(void) { long x; long z; { long x; return x; } }",
        "local 2",
    ),
    // the outer one after the block
    (
        "long w; long x; long main(void) { long x; long z; { long x; } return x; }",
        "local 0",
    ),
    // after the block the name at file scope
    (
        "long w; long x; long main(void) { { long x; } return x; }",
        "external x",
    ),
    // a name that no local hides
    (
        "long w; long x; long main(void) { long x; { long x; return w; } }",
        "external w",
    ),
    // the second static variable
    (
        "static long a; static long b; long main(void) { return b; }",
        "variable 1",
    ),
    // external, so by its name
    (
        "static long a; long b; long main(void) { return b; }",
        "external b",
    ),
    // counted among the variables that the unit defines
    (
        "extern long f; long gg; long f; extern long gg; static long ff; long main(void) { return ff; }",
        "variable 2",
    ),
    // counted by definitions, and not by prototypes
    (
        "static long f(void); static long f2(void) { return 0; } static long f(void) { return 0; } long main(void) { return f(); }",
        "function 1",
    ),
    // defined before the other one
    (
        "static long f(void); static long f2(void) { return 0; } static long f(void) { return 0; } long main(void) { return f2(); }",
        "function 0",
    ),
    // declared alone, so by its name
    (
        "long f(void); static long f2(void) { return 0; } long main(void) { return f(); }",
        "external f",
    ),
    // a function as a value
    (
        "static long g(void) { return 0; } static long f(void) { return 0; } fn0 main(void) { return f; }",
        "function 1",
    ),
];

/// A reference, in words.
fn reference(alloc: Global, reference: &Ref) -> Result<String, AllocError> {
    match reference {
        Ref::Global(name) => {
            let mut out = String::new(alloc);
            out.push_str("external ")?;
            push_bytes(&mut out, name.bytes())?;
            Ok(out)
        }
        Ref::LocalFun(number) => format!(in alloc; "function {number}"),
        Ref::LocalVar(number) => format!(in alloc; "variable {number}"),
    }
}

/// What the name means that an expression is, or calls.
fn meant(alloc: Global, kind: &TKind) -> Result<String, AllocError> {
    match kind {
        TKind::Local(number) => format!(in alloc; "local {number}"),
        TKind::Var(name) | TKind::Fun(name) | TKind::Call(name, _) => reference(alloc, name),
        _ => format!(in alloc; "no name"),
    }
}

/// The last statement of these, or of the block that is the last.
fn last_of(stmts: &[TStmt]) -> Option<&TStmt> {
    match stmts.last() {
        Some(TStmt::Block(inner)) => inner.as_slice().last(),
        last => last,
    }
}

/// What the name means that the last function returns at its end.
fn returned(alloc: Global, unit: &TUnit) -> Result<String, AllocError> {
    let Some(function) = unit.funs.as_slice().last() else {
        return format!(in alloc; "no function");
    };
    match last_of(function.body.as_slice()) {
        Some(TStmt::Return(Some(value))) => meant(alloc, &value.kind),
        _ => format!(in alloc; "no return"),
    }
}

#[test]
fn a_name_means_its_newest_local_or_what_is_declared_at_file_level(
    rt: HostRuntime,
) -> Result<(), Fail> {
    for (text, expected) in MEANT {
        match typed(&rt, rt.alloc(), text)? {
            Ok(unit) => {
                let meant = returned(rt.alloc(), &unit)?;
                assert_eq!(rt; meant.as_str(), expected, "in {text:?}");
            }
            Err(_) => assert!(rt; false, "in {text:?}"),
        }
    }
    Ok(())
}
