//! The code of statements.
#![tactic(auto, unfolding(pw_tree::specs::WellTypedStatements::Everywhere, pw_tree::specs::WellTypedStatements::EverywhereIn, pw_tree::specs::WellTypedStatements::EverywhereIf, pw_code::specs::StatementCode::statement_words, pw_code::specs::StatementCode::statements_words, pw_code::specs::StatementCode::optional_words, pw_code::specs::StatementCode::else_words, pw_code::specs::StatementCode::statement_code, pw_code::specs::StatementCode::statements_code, pw_code::specs::StatementCode::optional_code, pw_code::specs::StatementCode::else_code))]

ghost use Rattle.std.specs.Prelude.{◌≡◌, ◌≤◌, option_map};
ghost use Rattle.pw_tree.specs.TypedExpressions.{typed_expression_of};
ghost use Rattle.pw_tree.specs.TypedStatements.{while_loop, do_loop, returns, typed_statement_of, typed_statements_of, optional_typed_statement};
ghost use Rattle.pw_code.specs.StatementCode as code;
ghost use Rattle.pw_genexpr.specs.Appends.{Appends};
ghost use Rattle.pw_genexpr.specs.Conditions.{IsWithinLimits};
ghost use Rattle.pw_gen.specs.Steps.Places.{code_at, code_of_all_at, optional_code_at, else_code_at, then_code_at, for_body_code_at};
ghost use Rattle.pw_gen.specs.Steps.Emitting.{CanEmit, CanEmitAll, CanEmitOptional, CanEmitElse, CanEmitThen, CanEmitForBody};

use crate::assignment::{put_set_element, put_set_local, put_set_variable};
use crate::branch_places::{else_place, for_places};
use crate::control::{put_for_condition, put_jump, put_only_if, put_repeat_while, put_value};
use crate::place::Place;
use crate::size::{condition_words, statement_words, value_words};
use pw_base::NoMemory;
use pw_code::Item;
use pw_genexpr::{emit_expr, expression_words, put_skip};
use pw_tree::{TExpr, TStmt};
use sqlite_items::Boxed;

/// The words of the jump past an `else`, where there is one.
fn else_jump(b: &Option<Boxed<TStmt>>) -> u32
    ensures words { result ≡ code.else_jump (optional_typed_statement (option_map typed_statement_of b.now)) }
    ensures few { result ≤ 1 }
{
    match b {
        None => 0,
        Some(_) => 1,
    }
}

/// Appends the condition of an `if` and its first branch; an `else` after it has this jump.
#[cycle(emit)]
fn emit_then(
    a: &Boxed<TStmt>,
    c: &TExpr,
    jump_words: u32,
    place: Place,
    to: &mut Vec<Item>,
) -> Result<(), NoMemory>
    requires { CanEmitThen place (typed_expression_of c.now) (typed_statement_of a.now) jump_words }
    ensures { Appends (then_code_at place (typed_expression_of c.now) (typed_statement_of a.now) jump_words) to.old.items to.new.items result }
{
    let words = statement_words(a.get());
    put_only_if(c, words + jump_words, &place.frame, to)?;
    emit_statement(a.get(), place.after(expression_words(c) + 2), to)
}

/// Appends the code of a `while`.
#[cycle(emit)]
fn emit_while(
    body: &Boxed<TStmt>,
    c: &TExpr,
    place: Place,
    to: &mut Vec<Item>,
) -> Result<(), NoMemory>
    requires { CanEmit place (while_loop (typed_expression_of c.now) (typed_statement_of body.now)) }
    ensures { Appends (code_at place (while_loop (typed_expression_of c.now) (typed_statement_of body.now))) to.old.items to.new.items result }
{
    let body_place = place.after(expression_words(c) + 2);
    let words = statement_words(body.get());
    let next = body_place.at + words;
    put_only_if(c, words + 1, &place.frame, to)?;
    emit_statement(body.get(), body_place.in_loop(next + 1, next), to)?;
    put_jump(next, place.at, to)
}

/// Appends the code of a `do`.
#[cycle(emit)]
fn emit_do(body: &Boxed<TStmt>, c: &TExpr, place: Place, to: &mut Vec<Item>) -> Result<(), NoMemory>
    requires { CanEmit place (do_loop (typed_statement_of body.now) (typed_expression_of c.now)) }
    ensures { Appends (code_at place (do_loop (typed_statement_of body.now) (typed_expression_of c.now))) to.old.items to.new.items result }
{
    let next = place.at + statement_words(body.get());
    let jump_at = next + (expression_words(c) + 1);
    emit_statement(body.get(), place.in_loop(jump_at + 1, next), to)?;
    put_repeat_while(c, jump_at, place.at, &place.frame, to)
}

/// Appends the condition of a `for`, which stands at `top`, and its body; the last part after it has so many words.
#[cycle(emit)]
fn emit_for_body(
    body: &Boxed<TStmt>,
    c: &Option<TExpr>,
    last_words: u32,
    top: Place,
    to: &mut Vec<Item>,
) -> Result<(), NoMemory>
    requires limits { IsWithinLimits top.frame }
    requires parts { CanEmitForBody top (option_map typed_expression_of c.now) (typed_statement_of body.now) last_words }
    ensures { Appends (for_body_code_at top (option_map typed_expression_of c.now) (typed_statement_of body.now) last_words) to.old.items to.new.items result }
{
    let body_place = top.after(condition_words(c));
    let words = statement_words(body.get());
    let next = body_place.at + words;
    put_for_condition(c, words + (last_words + 1), &top.frame, to)?;
    emit_statement(
        body.get(),
        body_place.in_loop(next + last_words + 1, next),
        to,
    )
}

/// Appends the code of a `return`.
fn put_return(e: &Option<TExpr>, place: Place, to: &mut Vec<Item>) -> Result<(), NoMemory>
    requires { CanEmit place (returns (option_map typed_expression_of e.now)) }
    ensures { Appends (code_at place (returns (option_map typed_expression_of e.now))) to.old.items to.new.items result }
{
    put_value(e, &place.frame, to)?;
    put_jump(place.at + value_words(e), place.targets.return_to, to)
}

/// Appends the code of a statement.
#[cycle(emit)]
pub(crate) fn emit_statement(s: &TStmt, place: Place, to: &mut Vec<Item>) -> Result<(), NoMemory>
    requires { CanEmit place (typed_statement_of s.now) }
    ensures { Appends (code_at place (typed_statement_of s.now)) to.old.items to.new.items result }
{
    match s {
        TStmt::Eval(e) => emit_expr(e, &place.frame, 0, to),
        TStmt::SetLocal(number, value) => put_set_local(*number, value, &place.frame, to),
        TStmt::SetVar(x, e) => put_set_variable(x, e, &place.frame, to),
        TStmt::SetElem(a, size, line, i, e) => {
            put_set_element(a, (*size, *line), i, e, &place.frame, to)
        }
        TStmt::Block(body) => emit_statements(body.as_slice(), place, to),
        TStmt::If(c, a, b) => {
            let else_place = else_place(c, a, b, place);
            emit_then(a, c, else_jump(b), place, to)?;
            emit_else(b, else_place, to)
        }
        TStmt::While(c, body) => emit_while(body, c, place, to),
        TStmt::Do(body, c) => emit_do(body, c, place, to),
        TStmt::For(first, c, last, body) => {
            let places = for_places(first, c, last, body, place);
            emit_optional(first, place, to)?;
            emit_for_body(body, c, places.last_words, places.top, to)?;
            emit_optional(last, places.last, to)?;
            put_jump(places.last.at + places.last_words, places.top.at, to)
        }
        TStmt::Return(e) => put_return(e, place, to),
        TStmt::Break => put_jump(place.at, place.targets.break_to, to),
        TStmt::Continue => put_jump(place.at, place.targets.continue_to, to),
    }
}

/// Appends the code of statements.
#[cycle(emit)]
pub(crate) fn emit_statements(
    ss: &[TStmt],
    place: Place,
    to: &mut Vec<Item>,
) -> Result<(), NoMemory>
    requires { CanEmitAll place (typed_statements_of ss.now) }
    ensures { Appends (code_of_all_at place (typed_statements_of ss.now)) to.old.items to.new.items result }
{
    let mut here = place;
    for s in ss {
        emit_statement(s, here, to)?;
        here = here.after(statement_words(s));
    }
    Ok(())
}

/// Appends the code of a statement that may be absent.
#[cycle(emit)]
fn emit_optional(s: &Option<Boxed<TStmt>>, place: Place, to: &mut Vec<Item>) -> Result<(), NoMemory>
    requires limits { IsWithinLimits place.frame }
    requires parts { CanEmitOptional place (optional_typed_statement (option_map typed_statement_of s.now)) }
    ensures { Appends (optional_code_at place (optional_typed_statement (option_map typed_statement_of s.now))) to.old.items to.new.items result }
{
    match s {
        None => Ok(()),
        Some(s) => emit_statement(s.get(), place, to),
    }
}

/// Appends the code of an `else`, and the jump before it that goes past it.
#[cycle(emit)]
fn emit_else(s: &Option<Boxed<TStmt>>, place: Place, to: &mut Vec<Item>) -> Result<(), NoMemory>
    requires limits { IsWithinLimits place.frame }
    requires parts { CanEmitElse place (optional_typed_statement (option_map typed_statement_of s.now)) }
    ensures { Appends (else_code_at place (optional_typed_statement (option_map typed_statement_of s.now))) to.old.items to.new.items result }
{
    match s {
        None => Ok(()),
        Some(s) => {
            put_skip(statement_words(s.get()), to)?;
            emit_statement(s.get(), place.after(1), to)
        }
    }
}
