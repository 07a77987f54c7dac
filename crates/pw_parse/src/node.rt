//! Expressions and statements whose last token is the last that was read.
ghost use Rattle.std.specs.Prelude.{◌≡◌, Ok};
ghost use Rattle.pw_grammar.specs.Reading.Steps as spec;
ghost use Rattle.pw_grammar.specs.Reading.Steps.{Reads};

use crate::cursor::Cursor;
use pw_grammar::SyntaxError;
use pw_tree::{Expr, ExprKind, Stmt, StmtKind};
use sqlite_items::Boxed;
use std::alloc::Global;

/// The expression of this form, with the number of its first token and its line.
pub(crate) fn finished(
    alloc: Global,
    cursor: &Cursor<'_>,
    first: u32,
    line: u32,
    kind: ExprKind,
) -> Result<Boxed<Expr>, SyntaxError>
    ensures { Reads (spec.finish first line kind cursor.now) result cursor.now }
{
    let last = cursor.last();
    Ok(Boxed::new(
        alloc,
        Expr {
            first,
            last,
            line,
            kind,
        },
    )?)
}

/// The statement of this form, with the number of its first token and its line.
pub(crate) fn finished_statement(
    alloc: Global,
    cursor: &Cursor<'_>,
    first: u32,
    line: u32,
    kind: StmtKind,
) -> Result<Boxed<Stmt>, SyntaxError>
    ensures { Reads (spec.finish_statement first line kind cursor.now) result cursor.now }
{
    let last = cursor.last();
    Ok(Boxed::new(
        alloc,
        Stmt {
            first,
            last,
            line,
            kind,
        },
    )?)
}

/// The value in the box, if there is one.
pub(crate) fn unboxed(value: Option<Boxed<Expr>>) -> Option<Expr>
    ensures { result ≡ value }
{
    match value {
        Some(value) => Some(value.into_inner()),
        None => None,
    }
}
