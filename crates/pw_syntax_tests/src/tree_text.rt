//! The text of a tree: a phrase is `(NAME@FIRST-LAST/LINE PARTS)`, a constant or an identifier `NAME@FIRST-LAST/LINE`, and
//! `-` stands for a part that is left out. Tokens are counted from the token `start`.
use pw_base::Name;
use pw_tree::{Expr, ExprKind, Stmt, StmtKind, Ty};
use sqlite_items::Boxed;
use std::alloc::{AllocError, Global};

/// Adds `@FIRST-LAST/LINE`.
fn show_place(
    alloc: Global,
    out: &mut String,
    start: u32,
    span: (u32, u32, u32),
) -> Result<(), AllocError> {
    let (first, last) = (span.0.saturating_sub(start), span.1.saturating_sub(start));
    let line = span.2;
    out.push_str(format!(in alloc; "@{first}-{last}/{line}")?.as_str())
}

/// Adds a name.
fn show_name(out: &mut String, name: &Name) -> Result<(), AllocError> {
    for byte in name.bytes() {
        out.push(char::from(*byte))?;
    }
    Ok(())
}

/// Adds what an expression is, up to its place.
fn show_form(alloc: Global, out: &mut String, kind: &ExprKind) -> Result<(), AllocError> {
    match kind {
        ExprKind::Num(value, true) => out.push_str(format!(in alloc; "{value}u")?.as_str()),
        ExprKind::Num(value, false) => out.push_str(format!(in alloc; "{value}")?.as_str()),
        ExprKind::Word(name) => show_name(out, name),
        ExprKind::Unary(op, _) => out.push_str(format!(in alloc; "({op:?}")?.as_str()),
        ExprKind::Binary(op, _, _) => out.push_str(format!(in alloc; "({op:?}")?.as_str()),
        ExprKind::Cond(_, _, _) => out.push_str("(Cond"),
        ExprKind::Call(_, _) => out.push_str("(Call"),
        ExprKind::Index(_, _) => out.push_str("(Index"),
        ExprKind::Input => out.push_str("(Input"),
        ExprKind::Output(_) => out.push_str("(Output"),
    }
}

/// Adds expressions and a closing bracket.
#[cycle(show_expression)]
fn show_expressions(
    alloc: Global,
    out: &mut String,
    start: u32,
    exprs: &[Expr],
) -> Result<(), AllocError> {
    for expr in exprs {
        show_operand(alloc, out, start, expr)?;
    }
    out.push(')')
}

/// Adds a space and an expression.
#[cycle(show_expression)]
fn show_operand(
    alloc: Global,
    out: &mut String,
    start: u32,
    expr: &Expr,
) -> Result<(), AllocError> {
    out.push(' ')?;
    show_expression(alloc, out, start, expr)
}

/// Adds a space, an expression and a closing bracket.
#[cycle(show_expression)]
fn show_last(
    alloc: Global,
    out: &mut String,
    start: u32,
    expr: &Boxed<Expr>,
) -> Result<(), AllocError> {
    show_operand(alloc, out, start, expr.get())?;
    out.push(')')
}

/// Adds the parts of an expression and its closing bracket.
#[cycle(show_expression)]
fn show_parts(
    alloc: Global,
    out: &mut String,
    start: u32,
    kind: &ExprKind,
) -> Result<(), AllocError> {
    match kind {
        ExprKind::Num(_, _) | ExprKind::Word(_) => Ok(()),
        ExprKind::Input => out.push(')'),
        ExprKind::Unary(_, a) | ExprKind::Output(a) => show_last(alloc, out, start, a),
        ExprKind::Binary(_, a, b) | ExprKind::Index(a, b) => {
            show_operand(alloc, out, start, a.get())?;
            show_last(alloc, out, start, b)
        }
        ExprKind::Cond(test, a, b) => {
            show_operand(alloc, out, start, test.get())?;
            show_operand(alloc, out, start, a.get())?;
            show_last(alloc, out, start, b)
        }
        ExprKind::Call(callee, arguments) => {
            show_operand(alloc, out, start, callee.get())?;
            show_expressions(alloc, out, start, arguments.as_slice())
        }
    }
}

/// Adds an expression.
#[cycle(show_expression)]
pub(crate) fn show_expression(
    alloc: Global,
    out: &mut String,
    start: u32,
    expr: &Expr,
) -> Result<(), AllocError> {
    show_form(alloc, out, &expr.kind)?;
    show_place(alloc, out, start, (expr.first, expr.last, expr.line))?;
    show_parts(alloc, out, start, &expr.kind)
}

// ---- statements

/// Adds an expression, or ` -` for none.
fn show_value(alloc: Global, out: &mut String, expr: &Option<Expr>) -> Result<(), AllocError> {
    match expr {
        Some(expr) => show_operand(alloc, out, 0, expr),
        None => out.push_str(" -"),
    }
}

/// What a statement is.
fn statement_word(kind: &StmtKind) -> &'static str {
    match kind {
        StmtKind::Empty => " (Empty",
        StmtKind::Block(_) => " (Block",
        StmtKind::Local(_, _, _) => " (Local",
        StmtKind::Set(_, _, _) => " (Set",
        StmtKind::Eval(_) => " (Eval",
        StmtKind::If(_, _, _) => " (If",
        StmtKind::While(_, _) => " (While",
        StmtKind::Do(_, _) => " (Do",
        StmtKind::For(_, _, _, _) => " (For",
        StmtKind::Return(_) => " (Return",
        StmtKind::Break => " (Break",
        StmtKind::Continue => " (Continue",
    }
}

/// Adds statements.
#[cycle(show_statement)]
pub(crate) fn show_statements(
    alloc: Global,
    out: &mut String,
    stmts: &[Stmt],
) -> Result<(), AllocError> {
    for stmt in stmts {
        show_statement(alloc, out, stmt)?;
    }
    Ok(())
}

/// Adds a statement, or ` -` for none.
#[cycle(show_statement)]
fn show_part(
    alloc: Global,
    out: &mut String,
    stmt: &Option<Boxed<Stmt>>,
) -> Result<(), AllocError> {
    match stmt {
        Some(stmt) => show_statement(alloc, out, stmt.get()),
        None => out.push_str(" -"),
    }
}

/// Adds a statement.
#[cycle(show_statement)]
fn show_statement(alloc: Global, out: &mut String, stmt: &Stmt) -> Result<(), AllocError> {
    out.push_str(statement_word(&stmt.kind))?;
    show_place(alloc, out, 0, (stmt.first, stmt.last, stmt.line))?;
    show_statement_parts(alloc, out, &stmt.kind)?;
    out.push(')')
}

/// Adds a local's type, its name and what it is set to.
fn show_local(
    alloc: Global,
    out: &mut String,
    ty: Ty,
    name: &Name,
    value: &Option<Expr>,
) -> Result<(), AllocError> {
    out.push_str(format!(in alloc; " {ty:?} ")?.as_str())?;
    show_name(out, name)?;
    show_value(alloc, out, value)
}

/// Adds the parts of a statement, in the order of the text.
#[cycle(show_statement)]
fn show_statement_parts(
    alloc: Global,
    out: &mut String,
    kind: &StmtKind,
) -> Result<(), AllocError> {
    match kind {
        StmtKind::Empty | StmtKind::Break | StmtKind::Continue => Ok(()),
        StmtKind::Block(body) => show_statements(alloc, out, body.as_slice()),
        StmtKind::Local(ty, name, value) => show_local(alloc, out, *ty, name, value),
        StmtKind::Set(name, index, value) => {
            out.push(' ')?;
            show_name(out, name)?;
            show_value(alloc, out, index)?;
            show_operand(alloc, out, 0, value)
        }
        StmtKind::Eval(value) => show_operand(alloc, out, 0, value),
        StmtKind::If(test, yes, no) => {
            show_operand(alloc, out, 0, test)?;
            show_statement(alloc, out, yes.get())?;
            show_part(alloc, out, no)
        }
        StmtKind::While(test, body) => {
            show_operand(alloc, out, 0, test)?;
            show_statement(alloc, out, body.get())
        }
        StmtKind::Do(body, test) => {
            show_statement(alloc, out, body.get())?;
            show_operand(alloc, out, 0, test)
        }
        StmtKind::For(first, test, last, body) => {
            show_part(alloc, out, first)?;
            show_value(alloc, out, test)?;
            show_part(alloc, out, last)?;
            show_statement(alloc, out, body.get())
        }
        StmtKind::Return(value) => show_value(alloc, out, value),
    }
}
