//! The code of expressions.
ghost use Rattle.std.specs.Prelude.{◌≡◌, suc, ◌+◌, ◌++◌, length};
ghost use Rattle.pw_tree.specs.TypedExpressions.{typed_expression_of, typed_expressions_of};
ghost use Rattle.pw_code.specs.ExpressionCode.{expression_code, arguments_code, right_slot};
ghost use Rattle.pw_genexpr.specs.Appends.{Appends};
ghost use Rattle.pw_genexpr.specs.Conditions.{StandsIn};
ghost use Rattle.pw_genexpr.specs.Steps.Emitting.{CanEmit, CanEmitAll, binary_expression_code, operands_code, and_code, or_code, conditional_code, call_code, call_pointer_code};

use crate::forms::{
    put_call, put_call_pointer, put_element, put_input, put_local, put_output, put_variable,
};
use crate::immediate::put_load_immediate;
use crate::jumps::{put_skip, put_unless_nonzero, put_unless_zero};
use crate::operators::{Logical, TRUTH, logical_of, put_binary, put_unary};
use crate::put::{put_address, put_instruction};
use crate::slots::{held_slot, put_hold};
use crate::words::expression_words;
use pw_base::NoMemory;
use pw_code::{Frame, Item};
use pw_isa::Inst;
use pw_isa::registers::{A0, SP, T0};
use pw_tree::{Bin, Ref, TExpr, TKind};

/// Appends the code of an expression, in a function with this frame, where the held slots from `held` on are free.
pub fn emit_expr(e: &TExpr, frame: &Frame, held: u32, to: &mut Vec<Item>) -> Result<(), NoMemory>
    requires { StandsIn frame.now held (typed_expression_of e.now) }
    ensures { Appends (expression_code frame.now held (typed_expression_of e.now)) to.old.items to.new.items result }
{
    emit(e, frame, held, to)
}

/// Appends the code of an expression, by its form.
#[cycle(emit)]
#[tactic(auto, unfolding(pw_code::specs::ExpressionCode::expression_code, pw_tree::specs::WellTypedExpressions::Throughout, pw_tree::specs::WellTypedExpressions::expressions_in, pw_tree::specs::Held::held))]
fn emit(e: &TExpr, frame: &Frame, held: u32, to: &mut Vec<Item>) -> Result<(), NoMemory>
    requires { CanEmit frame.now held (typed_expression_of e.now) }
    ensures { Appends (expression_code frame.now held (typed_expression_of e.now)) to.old.items to.new.items result }
{
    match &e.kind {
        TKind::Num(value) => put_load_immediate(A0, *value, to),
        TKind::Local(number) => put_local(*number, to),
        TKind::Var(variable) => put_variable(variable, to),
        TKind::Fun(function) => put_address(A0, function, to),
        TKind::Elem(array, size, index) => {
            emit(index.get(), frame, held, to)?;
            put_element(array, *size, e.line, to)
        }
        TKind::Unary(op, operand) => {
            emit(operand.get(), frame, held, to)?;
            put_unary(*op, to)
        }
        TKind::Binary(op, unsigned, l, r) => {
            emit_binary(*op, *unsigned, e.line, l.get(), r.get(), frame, held, to)
        }
        TKind::Cond(c, a, b) => emit_conditional(c.get(), a.get(), b.get(), frame, held, to),
        TKind::Call(function, arguments) => {
            emit_call(function, arguments.as_slice(), frame, held, to)
        }
        TKind::CallPtr(callee, arguments) => {
            emit_call_pointer(callee.get(), arguments.as_slice(), e.line, frame, held, to)
        }
        TKind::Input => put_input(to),
        TKind::Output(value) => {
            emit(value.get(), frame, held, to)?;
            put_output(to)
        }
    }
}

/// Appends the code of a binary operator.
#[cycle(emit)]
fn emit_binary(
    op: Bin,
    unsigned: bool,
    line: u32,
    l: &TExpr,
    r: &TExpr,
    frame: &Frame,
    held: u32,
    to: &mut Vec<Item>,
) -> Result<(), NoMemory>
    requires left { CanEmit frame.now held (typed_expression_of l.now) }
    requires right { CanEmit frame.now (right_slot op held) (typed_expression_of r.now) }
    ensures { Appends (binary_expression_code frame.now held line op unsigned (typed_expression_of l.now) (typed_expression_of r.now)) to.old.items to.new.items result }
{
    match logical_of(op) {
        None => {
            emit_operands(l, r, frame, held, to)?;
            put_binary(op, unsigned, line, to)
        }
        Some(Logical::And) => emit_and(l, r, frame, held, to),
        Some(Logical::Or) => emit_or(l, r, frame, held, to),
    }
}

/// Appends the code of both operands of an operator: the left one is held meanwhile, and ends in t0.
#[cycle(emit)]
fn emit_operands(
    l: &TExpr,
    r: &TExpr,
    frame: &Frame,
    held: u32,
    to: &mut Vec<Item>,
) -> Result<(), NoMemory>
    requires left { CanEmit frame.now held (typed_expression_of l.now) }
    requires right { CanEmit frame.now (suc held) (typed_expression_of r.now) }
    ensures { Appends (operands_code frame.now held (typed_expression_of l.now) (typed_expression_of r.now)) to.old.items to.new.items result }
{
    emit(l, frame, held, to)?;
    put_hold(frame, held, to)?;
    emit(r, frame, held + 1, to)?;
    let left = Inst::Ld {
        rd: T0,
        rs1: SP,
        imm: held_slot(frame, held),
    };
    put_instruction(&left, to)
}

/// Appends the code of `&&`.
#[cycle(emit)]
fn emit_and(
    l: &TExpr,
    r: &TExpr,
    frame: &Frame,
    held: u32,
    to: &mut Vec<Item>,
) -> Result<(), NoMemory>
    requires left { CanEmit frame.now held (typed_expression_of l.now) }
    requires right { CanEmit frame.now held (typed_expression_of r.now) }
    ensures { Appends (and_code frame.now held (typed_expression_of l.now) (typed_expression_of r.now)) to.old.items to.new.items result }
{
    emit(l, frame, held, to)?;
    put_unless_zero(expression_words(r) + 1, to)?;
    emit(r, frame, held, to)?;
    put_instruction(&TRUTH, to)
}

/// Appends the code of `||`.
#[cycle(emit)]
fn emit_or(
    l: &TExpr,
    r: &TExpr,
    frame: &Frame,
    held: u32,
    to: &mut Vec<Item>,
) -> Result<(), NoMemory>
    requires left { CanEmit frame.now held (typed_expression_of l.now) }
    requires right { CanEmit frame.now held (typed_expression_of r.now) }
    ensures { Appends (or_code frame.now held (typed_expression_of l.now) (typed_expression_of r.now)) to.old.items to.new.items result }
{
    emit(l, frame, held, to)?;
    put_instruction(&TRUTH, to)?;
    put_unless_nonzero(expression_words(r) + 1, to)?;
    emit(r, frame, held, to)?;
    put_instruction(&TRUTH, to)
}

/// Appends the code of `c ? a : b`.
#[cycle(emit)]
fn emit_conditional(
    c: &TExpr,
    a: &TExpr,
    b: &TExpr,
    frame: &Frame,
    held: u32,
    to: &mut Vec<Item>,
) -> Result<(), NoMemory>
    requires condition { CanEmit frame.now held (typed_expression_of c.now) }
    requires first { CanEmit frame.now held (typed_expression_of a.now) }
    requires second { CanEmit frame.now held (typed_expression_of b.now) }
    ensures { Appends (conditional_code frame.now held (typed_expression_of c.now) (typed_expression_of a.now) (typed_expression_of b.now)) to.old.items to.new.items result }
{
    emit(c, frame, held, to)?;
    put_unless_zero(expression_words(a) + 1, to)?;
    emit(a, frame, held, to)?;
    put_skip(expression_words(b), to)?;
    emit(b, frame, held, to)
}

/// Appends the code of a call by name.
#[cycle(emit)]
fn emit_call(
    function: &Ref,
    arguments: &[TExpr],
    frame: &Frame,
    held: u32,
    to: &mut Vec<Item>,
) -> Result<(), NoMemory>
    requires { CanEmitAll frame.now held (typed_expressions_of arguments.now) }
    ensures { Appends (arguments_code frame.now held (typed_expressions_of arguments.now) ++ call_code frame.now held (length arguments.now) function.now) to.old.items to.new.items result }
{
    emit_arguments(arguments, frame, held, to)?;
    put_call(function, frame, held, arguments.len() as u8, to)
}

/// Appends the code of a call through a pointer.
#[cycle(emit)]
fn emit_call_pointer(
    callee: &TExpr,
    arguments: &[TExpr],
    line: u32,
    frame: &Frame,
    held: u32,
    to: &mut Vec<Item>,
) -> Result<(), NoMemory>
    requires arguments { CanEmitAll frame.now held (typed_expressions_of arguments.now) }
    requires callee { CanEmit frame.now (held + length arguments.now) (typed_expression_of callee.now) }
    ensures { Appends (arguments_code frame.now held (typed_expressions_of arguments.now) ++ (expression_code frame.now (held + length arguments.now) (typed_expression_of callee.now) ++ call_pointer_code frame.now held (length arguments.now) line)) to.old.items to.new.items result }
{
    emit_arguments(arguments, frame, held, to)?;
    emit(callee, frame, held + arguments.len() as u32, to)?;
    put_call_pointer(frame, held, arguments.len() as u8, line, to)
}

/// Appends the code of arguments, each of which is held.
#[cycle(emit)]
fn emit_arguments(
    arguments: &[TExpr],
    frame: &Frame,
    held: u32,
    to: &mut Vec<Item>,
) -> Result<(), NoMemory>
    requires { CanEmitAll frame.now held (typed_expressions_of arguments.now) }
    ensures { Appends (arguments_code frame.now held (typed_expressions_of arguments.now)) to.old.items to.new.items result }
{
    let mut slot = held;
    for argument in arguments {
        emit(argument, frame, slot, to)?;
        put_hold(frame, slot, to)?;
        slot += 1;
    }
    Ok(())
}
