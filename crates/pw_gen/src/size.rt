//! How many words the code of statements is.
#![tactic(auto, unfolding(pw_tree::specs::WellTypedStatements::Everywhere, pw_tree::specs::WellTypedStatements::EverywhereIn, pw_tree::specs::WellTypedStatements::EverywhereIf, pw_code::specs::StatementCode::statement_words, pw_code::specs::StatementCode::statements_words, pw_code::specs::StatementCode::optional_words, pw_code::specs::StatementCode::else_words))]

ghost use Rattle.std.specs.Prelude.{◌≡◌, ◌+◌, ◌≤◌, ◌<◌, option_map};
ghost use Rattle.pw_tree.specs.TypedExpressions.{typed_expression_of};
ghost use Rattle.pw_tree.specs.TypedStatements.{typed_statement_of, typed_statements_of, optional_typed_statement};
ghost use Rattle.pw_tree.specs.WellTypedStatements.{IfPresent};
ghost use Rattle.pw_code.specs.Bounds.{HasShortCode};
ghost use Rattle.pw_code.specs.ExpressionCode.{expression_words as words_of};
ghost use Rattle.pw_code.specs.Pieces as pieces;
ghost use Rattle.pw_code.specs.StatementCode as code;
ghost use Rattle.pw_gen.specs.Steps.Measuring.{reach, CanMeasure, CanMeasureAll, CanMeasureOptional, CanMeasureElse};

use pw_genexpr::{expression_words, fault_words, immediate_words};
use pw_tree::{TExpr, TStmt};
use sqlite_items::Boxed;

/// How many words check an index.
fn check_index_words(size: u32, line: u32) -> u32
    ensures words { result ≡ pieces.check_index_words size line }
    ensures few { result ≤ 16 }
{
    immediate_words(u64::from(size)) + (1 + fault_words(line))
}

/// How many words compute a value, if there is one.
pub(crate) fn value_words(e: &Option<TExpr>) -> u32
    requires { IfPresent HasShortCode (option_map typed_expression_of e.now) }
    ensures words { result ≡ code.value_words (option_map typed_expression_of e.now) }
    ensures near { result < reach }
{
    match e {
        None => 0,
        Some(e) => expression_words(e),
    }
}

/// How many words a `for`'s condition is, if there is one.
pub(crate) fn condition_words(c: &Option<TExpr>) -> u32
    requires { IfPresent HasShortCode (option_map typed_expression_of c.now) }
    ensures words { result ≡ code.condition_words (option_map typed_expression_of c.now) }
    ensures near { result < reach }
{
    match c {
        None => 0,
        Some(c) => expression_words(c) + 2,
    }
}

/// How many words `a[i] = e` is.
fn set_element_words(size: u32, line: u32, i: &TExpr, e: &TExpr) -> u32
    requires index { HasShortCode (typed_expression_of i.now) }
    requires value { HasShortCode (typed_expression_of e.now) }
    ensures { result ≡ words_of (typed_expression_of i.now) + (pieces.check_index_words size line + (1 + (words_of (typed_expression_of e.now) + 6))) }
{
    expression_words(i) + (check_index_words(size, line) + (1 + (expression_words(e) + 6)))
}

/// How many words a statement is.
#[cycle(size)]
pub(crate) fn statement_words(s: &TStmt) -> u32
    requires { CanMeasure (typed_statement_of s.now) }
    ensures { result ≡ code.statement_words (typed_statement_of s.now) }
{
    match s {
        TStmt::Eval(e) => expression_words(e),
        TStmt::SetLocal(_, value) => value_words(value) + 1,
        TStmt::SetVar(_, e) => expression_words(e) + 3,
        TStmt::SetElem(_, size, line, i, e) => set_element_words(*size, *line, i, e),
        TStmt::Block(body) => statements_words(body.as_slice()),
        TStmt::If(c, a, b) => {
            expression_words(c) + (2 + (statement_words(a.get()) + else_words(b)))
        }
        TStmt::While(c, body) => expression_words(c) + (2 + (statement_words(body.get()) + 1)),
        TStmt::Do(body, c) => statement_words(body.get()) + (expression_words(c) + 2),
        TStmt::For(first, c, last, body) => {
            let parts = statement_words(body.get()) + (optional_words(last) + 1);
            optional_words(first) + (condition_words(c) + parts)
        }
        TStmt::Return(value) => value_words(value) + 1,
        TStmt::Break | TStmt::Continue => 1,
    }
}

/// How many words statements are.
#[cycle(size)]
pub(crate) fn statements_words(ss: &[TStmt]) -> u32
    requires { CanMeasureAll (typed_statements_of ss.now) }
    ensures { result ≡ code.statements_words (typed_statements_of ss.now) }
{
    let mut words = 0;
    for s in ss {
        words += statement_words(s);
    }
    words
}

/// How many words a statement is that may be absent.
#[cycle(size)]
pub(crate) fn optional_words(s: &Option<Boxed<TStmt>>) -> u32
    requires { CanMeasureOptional (optional_typed_statement (option_map typed_statement_of s.now)) }
    ensures { result ≡ code.optional_words (optional_typed_statement (option_map typed_statement_of s.now)) }
{
    match s {
        None => 0,
        Some(s) => statement_words(s.get()),
    }
}

/// How many words an `else` is, with the jump before it that goes past it.
#[cycle(size)]
fn else_words(s: &Option<Boxed<TStmt>>) -> u32
    requires { CanMeasureElse (optional_typed_statement (option_map typed_statement_of s.now)) }
    ensures { result ≡ code.else_words (optional_typed_statement (option_map typed_statement_of s.now)) }
{
    match s {
        None => 0,
        Some(s) => 1 + statement_words(s.get()),
    }
}
