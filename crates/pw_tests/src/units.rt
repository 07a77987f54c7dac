//! The unit and the typed unit of a short text, and a copy of each, with all that is in them.

use pw_front::front;
use pw_parse::parse;
use pw_tree::{
    Bin, Decl, DeclKind, Expr, ExprKind, Linkage, Stmt, StmtKind, TExpr, TFun, TKind, TStmt, TUnit,
    Ty, Unit,
};
use sqlite_items::Items;
use std::test::Fail;

const TEXT: &[u8] = b"long main(void) {\nlong z;\nz = 0;\nreturn 1 / z; }";

// ---- the unit

/// A constant, which is this token.
fn is_constant(e: &Expr, at: u32, line: u32, value: u64) -> bool {
    e.first == at
        && e.last == at
        && e.line == line
        && matches!(e.kind, ExprKind::Num(n, false) if n == value)
}

/// The name `z`, which is this token.
fn is_z(e: &Expr, at: u32, line: u32) -> bool {
    match &e.kind {
        ExprKind::Word(name) => {
            e.first == at && e.last == at && e.line == line && name.bytes() == b"z".as_slice()
        }
        _ => false,
    }
}

/// `1 / z`
fn is_quotient(e: &Expr) -> bool {
    match &e.kind {
        ExprKind::Binary(Bin::Div, l, r) => {
            e.first == 14
                && e.last == 16
                && e.line == 4
                && is_constant(l.get(), 14, 4, 1)
                && is_z(r.get(), 16, 4)
        }
        _ => false,
    }
}

/// A statement that stands here.
fn stands(s: &Stmt, first: u32, last: u32, line: u32) -> bool {
    s.first == first && s.last == last && s.line == line
}

/// `long z;`
fn is_local(s: &Stmt) -> bool {
    match &s.kind {
        StmtKind::Local(Ty::Long, name, None) => {
            stands(s, 6, 8, 2) && name.bytes() == b"z".as_slice()
        }
        _ => false,
    }
}

/// `z = 0;`
fn is_assignment(s: &Stmt) -> bool {
    match &s.kind {
        StmtKind::Set(name, None, value) => {
            stands(s, 9, 12, 3) && name.bytes() == b"z".as_slice() && is_constant(value, 11, 3, 0)
        }
        _ => false,
    }
}

/// `return 1 / z;`
fn is_return(s: &Stmt) -> bool {
    match &s.kind {
        StmtKind::Return(Some(value)) => stands(s, 13, 17, 4) && is_quotient(value),
        _ => false,
    }
}

/// The statements of `main`.
fn is_body(body: &[Stmt]) -> bool {
    match body {
        [local, assignment, last] => {
            is_local(local) && is_assignment(assignment) && is_return(last)
        }
        _ => false,
    }
}

/// `main`
fn is_main(d: &Decl) -> bool {
    let stands = d.first == 0 && d.name_at == 1 && d.declarator == 4 && d.last == 18 && d.line == 1;
    match &d.kind {
        DeclKind::Fun(Ty::Long, params, body) => {
            stands
                && d.linkage == Linkage::Plain
                && d.name.bytes() == b"main".as_slice()
                && params.is_empty()
                && is_body(body.as_slice())
        }
        _ => false,
    }
}

/// The unit of the text.
fn is_unit(unit: &Unit) -> bool {
    let lines = [1, 1, 1, 1, 1, 1, 2, 2, 2, 3, 3, 3, 3, 4, 4, 4, 4, 4, 4];
    match unit.decls.as_slice() {
        [main] => is_main(main) && unit.lines.as_slice() == lines.as_slice(),
        _ => false,
    }
}

// ---- the typed unit

/// A constant of type long.
fn is_long(e: &TExpr, line: u32, value: u64) -> bool {
    e.ty == Ty::Long && e.line == line && matches!(e.kind, TKind::Num(n) if n == value)
}

/// The signed quotient of 1 and the first local.
fn is_typed_quotient(e: &TExpr) -> bool {
    match &e.kind {
        TKind::Binary(Bin::Div, false, l, r) => {
            let r = r.get();
            e.ty == Ty::Long
                && e.line == 4
                && is_long(l.get(), 4, 1)
                && r.ty == Ty::Long
                && r.line == 4
                && matches!(r.kind, TKind::Local(0))
        }
        _ => false,
    }
}

/// The typed statements of `main`.
fn is_typed_body(body: &[TStmt]) -> bool {
    match body {
        [
            TStmt::SetLocal(0, None),
            TStmt::SetLocal(0, Some(zero)),
            TStmt::Return(Some(value)),
        ] => is_long(zero, 3, 0) && is_typed_quotient(value),
        _ => false,
    }
}

/// `main`, typed.
fn is_typed_main(f: &TFun) -> bool {
    f.name.bytes() == b"main".as_slice()
        && f.global
        && f.sig.result == Ty::Long
        && f.sig.params.is_empty()
        && f.line == 1
        && f.locals == 1
        && f.held == 1
        && is_typed_body(f.body.as_slice())
}

/// The typed unit of the text.
fn is_typed_unit(unit: &TUnit) -> bool {
    match (unit.funs.as_slice(), unit.names.as_slice()) {
        ([main], [name]) => {
            is_typed_main(main)
                && unit.vars.is_empty()
                && name.name.bytes() == b"main".as_slice()
                && name.text.bytes() == b"l()".as_slice()
        }
        _ => false,
    }
}

#[test]
fn a_unit_and_its_copy_are_those_of_the_text(rt: HostRuntime) -> Result<(), Fail> {
    let tokens = match pw_lex::tokens(rt.alloc(), TEXT) {
        Ok(tokens) => tokens,
        Err(_) => Items::new(rt.alloc()),
    };
    assert!(rt; tokens.len() == 19);
    match parse(rt.alloc(), tokens.as_slice()) {
        Ok(unit) => {
            assert!(rt; is_unit(&unit));
            let copy = unit.copy(rt.alloc())?;
            assert!(rt; is_unit(&copy));
        }
        Err(_) => assert!(rt; false),
    }
    Ok(())
}

#[test]
fn a_typed_unit_and_its_copy_are_those_of_the_text(rt: HostRuntime) -> Result<(), Fail> {
    match front(rt.alloc(), TEXT) {
        Ok(unit) => {
            assert!(rt; is_typed_unit(&unit));
            let copy = unit.copy(rt.alloc())?;
            assert!(rt; is_typed_unit(&copy));
        }
        Err(_) => assert!(rt; false),
    }
    Ok(())
}
