//! The functions that a body names, in order of text, each once.
#![tactic(auto, unfolding(pw_code::specs::Objects::functions_in, pw_code::specs::Objects::functions_in_all, pw_code::specs::Objects::functions_of, pw_code::specs::Objects::functions_of_all, pw_code::specs::Objects::functions_of_optional))]

ghost use Rattle.std.specs.Prelude.{◌≡◌, OnOk, IfOk, option_map};
ghost use Rattle.pw_tree.specs.TypedExpressions.{typed_expression_of, typed_expressions_of};
ghost use Rattle.pw_tree.specs.TypedStatements.{typed_statement_of, typed_statements_of, optional_typed_statement};
ghost use Rattle.pw_tree.specs.Units.{typed_function_of};
ghost use Rattle.pw_code.specs.Objects as objects;
ghost use Rattle.pw_gen.specs.Steps.Naming.{joined_all};

use crate::reference_list::References;
use pw_base::NoMemory;
use pw_tree::{Ref, TExpr, TFun, TKind, TStmt};
use sqlite_items::{Boxed, Items};
use std::alloc::Global;

/// The functions that an expression names join those found.
#[cycle(name_expression)]
fn name_expression(alloc: Global, e: &TExpr, found: &mut References) -> Result<(), NoMemory>
    ensures { OnOk result (found.new ≡ joined_all found.old (objects.functions_in (typed_expression_of e.now))) }
{
    match &e.kind {
        TKind::Num(_) | TKind::Local(_) | TKind::Var(_) | TKind::Input => Ok(()),
        TKind::Fun(f) => found.join(alloc, f),
        TKind::Elem(_, _, e) | TKind::Unary(_, e) | TKind::Output(e) => {
            name_expression(alloc, e.get(), found)
        }
        TKind::Binary(_, _, l, r) => {
            name_expression(alloc, l.get(), found)?;
            name_expression(alloc, r.get(), found)
        }
        TKind::Cond(c, a, b) => {
            name_expression(alloc, c.get(), found)?;
            name_expression(alloc, a.get(), found)?;
            name_expression(alloc, b.get(), found)
        }
        TKind::Call(f, arguments) => {
            found.join(alloc, f)?;
            name_expressions(alloc, arguments.as_slice(), found)
        }
        TKind::CallPtr(e, arguments) => {
            name_expression(alloc, e.get(), found)?;
            name_expressions(alloc, arguments.as_slice(), found)
        }
    }
}

/// Those that arguments name join them.
#[cycle(name_expression)]
fn name_expressions(alloc: Global, es: &[TExpr], found: &mut References) -> Result<(), NoMemory>
    ensures { OnOk result (found.new ≡ joined_all found.old (objects.functions_in_all (typed_expressions_of es.now))) }
{
    for e in es {
        name_expression(alloc, e, found)?;
    }
    Ok(())
}

/// Those of an expression that may be absent join them.
fn name_option(alloc: Global, e: &Option<TExpr>, found: &mut References) -> Result<(), NoMemory>
    ensures { OnOk result (found.new ≡ joined_all found.old (objects.functions_in_option (option_map typed_expression_of e.now))) }
{
    match e {
        None => Ok(()),
        Some(e) => name_expression(alloc, e, found),
    }
}

/// Those that a statement names join them.
#[cycle(name_statement)]
fn name_statement(alloc: Global, s: &TStmt, found: &mut References) -> Result<(), NoMemory>
    ensures { OnOk result (found.new ≡ joined_all found.old (objects.functions_of (typed_statement_of s.now))) }
{
    match s {
        TStmt::Eval(e) | TStmt::SetVar(_, e) => name_expression(alloc, e, found),
        TStmt::SetLocal(_, e) | TStmt::Return(e) => name_option(alloc, e, found),
        TStmt::SetElem(_, _, _, i, e) => {
            name_expression(alloc, i, found)?;
            name_expression(alloc, e, found)
        }
        TStmt::Block(body) => name_statements(alloc, body.as_slice(), found),
        TStmt::If(c, a, b) => {
            name_expression(alloc, c, found)?;
            name_statement(alloc, a.get(), found)?;
            name_optional(alloc, b, found)
        }
        TStmt::While(c, body) => {
            name_expression(alloc, c, found)?;
            name_statement(alloc, body.get(), found)
        }
        TStmt::Do(body, c) => {
            name_statement(alloc, body.get(), found)?;
            name_expression(alloc, c, found)
        }
        TStmt::For(first, c, last, body) => {
            name_optional(alloc, first, found)?;
            name_option(alloc, c, found)?;
            name_optional(alloc, last, found)?;
            name_statement(alloc, body.get(), found)
        }
        TStmt::Break | TStmt::Continue => Ok(()),
    }
}

/// Those that statements name join them.
#[cycle(name_statement)]
fn name_statements(alloc: Global, ss: &[TStmt], found: &mut References) -> Result<(), NoMemory>
    ensures { OnOk result (found.new ≡ joined_all found.old (objects.functions_of_all (typed_statements_of ss.now))) }
{
    for s in ss {
        name_statement(alloc, s, found)?;
    }
    Ok(())
}

/// Those of a statement that may be absent join them.
#[cycle(name_statement)]
fn name_optional(
    alloc: Global,
    s: &Option<Boxed<TStmt>>,
    found: &mut References,
) -> Result<(), NoMemory>
    ensures { OnOk result (found.new ≡ joined_all found.old (objects.functions_of_optional (optional_typed_statement (option_map typed_statement_of s.now)))) }
{
    match s {
        None => Ok(()),
        Some(s) => name_statement(alloc, s.get(), found),
    }
}

/// The functions that the body of a function names.
#[tactic(auto, using(crate::proofs::Gathering::gathered))]
pub(crate) fn dependencies(alloc: Global, f: &TFun) -> Result<Items<Ref>, NoMemory>
    ensures { IfOk result (λ found. found ≡ objects.dependencies (typed_function_of f.now)) }
{
    let mut found = References::new(alloc);
    name_statements(alloc, f.body.as_slice(), &mut found)?;
    found.list(alloc)
}
