//! A statement, untyped and typed, is copied with the statements in it.
use pw_base::NoMemory;
use pw_tree::{Expr, ExprKind, Stmt, StmtKind, TExpr, TKind, TStmt, Ty};
use sqlite_items::Boxed;
use std::alloc::Global;
use std::test::Fail;

/// A form that holds statements.
#[derive(Clone, Copy)]
enum Form {
    If,
    For,
}

/// A statement of a form: the constant that is its condition, and the numbers of the statements in it. Of an `if` they are
/// the branch and `else`, of a `for` the first part, the last part and the body.
#[derive(Clone, Copy)]
struct Row {
    form: Form,
    condition: u64,
    first: Option<u32>,
    last: Option<u32>,
    body: u32,
}

const ROWS: [Row; 5] = [
    Row {
        form: Form::If,
        condition: 5,
        first: None,
        last: None,
        body: 2,
    },
    Row {
        form: Form::If,
        condition: 6,
        first: None,
        last: Some(3),
        body: 2,
    },
    Row {
        form: Form::For,
        condition: 7,
        first: None,
        last: None,
        body: 4,
    },
    Row {
        form: Form::For,
        condition: 8,
        first: Some(1),
        last: None,
        body: 4,
    },
    Row {
        form: Form::For,
        condition: 9,
        first: Some(1),
        last: Some(2),
        body: 4,
    },
];

/// What a statement has of a row: its condition, its first part, its last part or `else`, and its body or branch.
type Found = (u64, Option<u32>, Option<u32>, u32);

// ---- statements as they are written

/// The constant.
fn constant(value: u64) -> Expr {
    Expr {
        first: 0,
        last: 0,
        line: 1,
        kind: ExprKind::Num(value, false),
    }
}

/// A `;` on the line of this number.
fn numbered(alloc: Global, number: u32) -> Result<Boxed<Stmt>, NoMemory> {
    let empty = Stmt {
        first: 4,
        last: 5,
        line: number,
        kind: StmtKind::Empty,
    };
    Ok(Boxed::new(alloc, empty)?)
}

/// The same, where there is one.
fn optional(alloc: Global, number: Option<u32>) -> Result<Option<Boxed<Stmt>>, NoMemory> {
    match number {
        Some(number) => Ok(Some(numbered(alloc, number)?)),
        None => Ok(None),
    }
}

/// The form of a row.
fn form_of(alloc: Global, row: Row) -> Result<Boxed<StmtKind>, NoMemory> {
    let first = optional(alloc, row.first)?;
    let last = optional(alloc, row.last)?;
    let body = numbered(alloc, row.body)?;
    let c = constant(row.condition);
    let form = match row.form {
        Form::If => StmtKind::If(c, body, last),
        Form::For => StmtKind::For(first, Some(c), last, body),
    };
    Ok(Boxed::new(alloc, form)?)
}

/// The statement of a row.
fn statement_of(alloc: Global, row: Row) -> Result<Boxed<Stmt>, NoMemory> {
    let form = form_of(alloc, row)?;
    let statement = Stmt {
        first: 1,
        last: 9,
        line: 1,
        kind: form.into_inner(),
    };
    Ok(Boxed::new(alloc, statement)?)
}

/// The line of a `;` that is where it was put.
fn number(s: &Boxed<Stmt>) -> Option<u32> {
    match s.get() {
        Stmt {
            first: 4,
            last: 5,
            line,
            kind: StmtKind::Empty,
        } => Some(*line),
        _ => None,
    }
}

/// The same, where there is one.
fn option_number(s: &Option<Boxed<Stmt>>) -> Option<u32> {
    match s {
        Some(s) => number(s),
        None => None,
    }
}

/// The value of a constant, or 0.
fn value(e: &Expr) -> u64 {
    match e.kind {
        ExprKind::Num(value, false) => value,
        _ => 0,
    }
}

/// What a form has of a row.
fn found(form: &StmtKind) -> Option<Found> {
    match form {
        StmtKind::If(c, yes, no) => Some((value(c), None, option_number(no), number(yes)?)),
        StmtKind::For(first, Some(c), last, body) => {
            Some((
                value(c),
                option_number(first),
                option_number(last),
                number(body)?,
            ))
        }
        _ => None,
    }
}

/// What a copy of the statement has of its row, and what a copy of its form has.
fn copied(alloc: Global, row: Row) -> Result<[Option<Found>; 2], NoMemory> {
    let statement = statement_of(alloc, row)?;
    let copy = Boxed::new(alloc, statement.get().copy(alloc)?)?;
    let form = Boxed::new(alloc, statement.get().kind.copy(alloc)?)?;
    Ok([found(&copy.get().kind), found(form.get())])
}

#[test]
fn a_statement_is_copied_with_those_in_it(rt: HostRuntime) -> Result<(), Fail> {
    for row in &ROWS {
        let expected = Some((row.condition, row.first, row.last, row.body));
        assert_eq!(rt; copied(rt.alloc(), *row)?, [expected, expected]);
    }
    Ok(())
}

// ---- typed statements

/// The constant, typed.
fn typed_constant(value: u64) -> TExpr {
    TExpr {
        ty: Ty::Long,
        line: 1,
        kind: TKind::Num(value),
    }
}

/// The declaration of the local of this number.
fn typed_numbered(alloc: Global, number: u32) -> Result<Boxed<TStmt>, NoMemory> {
    Ok(Boxed::new(alloc, TStmt::SetLocal(number, None))?)
}

/// The same, where there is one.
fn typed_optional(alloc: Global, number: Option<u32>) -> Result<Option<Boxed<TStmt>>, NoMemory> {
    match number {
        Some(number) => Ok(Some(typed_numbered(alloc, number)?)),
        None => Ok(None),
    }
}

/// The typed statement of a row.
fn typed_statement_of(alloc: Global, row: Row) -> Result<Boxed<TStmt>, NoMemory> {
    let first = typed_optional(alloc, row.first)?;
    let last = typed_optional(alloc, row.last)?;
    let body = typed_numbered(alloc, row.body)?;
    let c = typed_constant(row.condition);
    let statement = match row.form {
        Form::If => TStmt::If(c, body, last),
        Form::For => TStmt::For(first, Some(c), last, body),
    };
    Ok(Boxed::new(alloc, statement)?)
}

/// The number of the local that is declared.
fn typed_number(s: &Boxed<TStmt>) -> Option<u32> {
    match s.get() {
        TStmt::SetLocal(number, None) => Some(*number),
        _ => None,
    }
}

/// The same, where there is a statement.
fn typed_option_number(s: &Option<Boxed<TStmt>>) -> Option<u32> {
    match s {
        Some(s) => typed_number(s),
        None => None,
    }
}

/// The value of a typed constant, or 0.
fn typed_value(e: &TExpr) -> u64 {
    match e.kind {
        TKind::Num(value) => value,
        _ => 0,
    }
}

/// What a typed statement has of a row.
fn typed_found(s: &TStmt) -> Option<Found> {
    match s {
        TStmt::If(c, yes, no) => {
            Some((
                typed_value(c),
                None,
                typed_option_number(no),
                typed_number(yes)?,
            ))
        }
        TStmt::For(first, Some(c), last, body) => Some((
            typed_value(c),
            typed_option_number(first),
            typed_option_number(last),
            typed_number(body)?,
        )),
        _ => None,
    }
}

/// What a copy of the typed statement has of its row.
fn typed_copied(alloc: Global, row: Row) -> Result<Option<Found>, NoMemory> {
    let statement = typed_statement_of(alloc, row)?;
    let copy = Boxed::new(alloc, statement.get().copy(alloc)?)?;
    Ok(typed_found(copy.get()))
}

#[test]
fn a_typed_statement_is_copied_with_those_in_it(rt: HostRuntime) -> Result<(), Fail> {
    for row in &ROWS {
        let expected = Some((row.condition, row.first, row.last, row.body));
        assert_eq!(rt; typed_copied(rt.alloc(), *row)?, expected);
    }
    Ok(())
}
