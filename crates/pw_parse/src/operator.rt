//! The operators that symbols are, and the prefix operators before an operand.
ghost use Rattle.std.specs.Prelude.{◌≡◌, ◌-◌, ◌≤◌, [], length, IfOk};
ghost use Rattle.pw_grammar.specs.Reading.Expressions as spec;
ghost use Rattle.pw_grammar.specs.Reading.Steps.{Reads};
ghost use Rattle.pw_grammar.specs.Terminals as terminals;

use crate::cursor::Cursor;
use pw_grammar::{Sort, SyntaxError};
use pw_tree::{Bin, Expr, ExprKind, Un};
use sqlite_items::{Boxed, Items};
use std::alloc::{AllocError, Global};

/// The operator that a symbol is before its operand (C17, 6.5.3.3).
fn prefix_of(sort: Sort) -> Option<Un>
    ensures { result ≡ terminals.prefix_of sort }
{
    match sort {
        Sort::Minus => Some(Un::Neg),
        Sort::Plus => Some(Un::Plus),
        Sort::Tilde => Some(Un::Not),
        Sort::Bang => Some(Un::Bang),
        _ => None,
    }
}

/// The operator that a symbol is between its operands (C17, 6.5.5 to 6.5.14).
fn binary_of(sort: Sort) -> Option<Bin>
    ensures { result ≡ terminals.binary_of sort }
{
    match sort {
        Sort::Star => Some(Bin::Mul),
        Sort::Slash => Some(Bin::Div),
        Sort::Percent => Some(Bin::Rem),
        Sort::Plus => Some(Bin::Add),
        Sort::Minus => Some(Bin::Sub),
        Sort::ShiftLeft => Some(Bin::Shl),
        Sort::ShiftRight => Some(Bin::Shr),
        Sort::Less => Some(Bin::Lt),
        Sort::Greater => Some(Bin::Gt),
        Sort::LessEqual => Some(Bin::Le),
        Sort::GreaterEqual => Some(Bin::Ge),
        Sort::Equal => Some(Bin::Eq),
        Sort::NotEqual => Some(Bin::Ne),
        Sort::And => Some(Bin::And),
        Sort::Xor => Some(Bin::Xor),
        Sort::Or => Some(Bin::Or),
        Sort::AndAnd => Some(Bin::AndAnd),
        Sort::OrOr => Some(Bin::OrOr),
        _ => None,
    }
}

/// The level of an operator: the tightest have level 3, the loosest 12.
fn level_of(op: Bin) -> usize
    ensures { result ≡ terminals.level_of op }
{
    match op {
        Bin::Mul | Bin::Div | Bin::Rem => 3,
        Bin::Add | Bin::Sub => 4,
        Bin::Shl | Bin::Shr => 5,
        Bin::Lt | Bin::Gt | Bin::Le | Bin::Ge => 6,
        Bin::Eq | Bin::Ne => 7,
        Bin::And => 8,
        Bin::Xor => 9,
        Bin::Or => 10,
        Bin::AndAnd => 11,
        Bin::OrOr => 12,
    }
}

/// The operator, if it is of the level.
fn at_level(level: usize, op: Option<Bin>) -> Option<Bin>
    ensures { result ≡ spec.at_level level op }
{
    match op {
        None => None,
        Some(op) => {
            if level_of(op) == level {
                Some(op)
            } else {
                None
            }
        }
    }
}

/// An operator of the level, with its line, if one comes next.
#[tactic(auto, unfolding(pw_grammar::specs::Reading::Expressions::binary_operator))]
pub(crate) fn binary_operator(
    cursor: &mut Cursor<'_>,
    level: usize,
) -> Result<Option<(Bin, u32)>, SyntaxError>
    ensures { Reads (spec.binary_operator level cursor.old) result cursor.new }
{
    match at_level(level, binary_of(cursor.peek())) {
        None => Ok(None),
        Some(op) => Ok(Some((op, cursor.skip()?))),
    }
}

/// An operator before an operand, with its line, if one comes next.
#[tactic(auto, unfolding(pw_grammar::specs::Reading::Expressions::prefix_operator))]
fn prefix_operator(cursor: &mut Cursor<'_>) -> Result<Option<(Un, u32)>, SyntaxError>
    ensures { Reads (spec.prefix_operator cursor.old) result cursor.new }
{
    match prefix_of(cursor.peek()) {
        None => Ok(None),
        Some(op) => Ok(Some((op, cursor.skip()?))),
    }
}

/// The prefix operators that come next, with their lines.
pub(crate) fn operators(
    alloc: Global,
    cursor: &mut Cursor<'_>,
    iterations: usize,
) -> Result<Items<(Un, u32)>, SyntaxError>
    ensures { Reads (spec.operators iterations [] cursor.old) result cursor.new }
{
    let mut found = Items::new(alloc);
    for _iteration in 0..iterations {
        match prefix_operator(cursor)? {
            None => return Ok(found),
            Some(op) => found.push(op)?,
        }
    }
    Ok(found)
}

/// The operand after these operators. `at` is the number of the operand's first token, `last` that of its last.
pub(crate) fn wrapped(
    alloc: Global,
    mut at: u32,
    last: u32,
    mut ops: Items<(Un, u32)>,
    operand: Boxed<Expr>,
) -> Result<Boxed<Expr>, AllocError>
    requires { length ops ≤ at }
    ensures { IfOk result (λ whole. whole ≡ spec.under_operators (at - length ops) last ops operand) }
{
    let mut whole = operand;
    'inner: while let Some((op, line)) = ops.pop() {
        at -= 1;
        whole = Boxed::new(
            alloc,
            Expr {
                first: at,
                last,
                line,
                kind: ExprKind::Unary(op, whole),
            },
        )?;
    }
    Ok(whole)
}
