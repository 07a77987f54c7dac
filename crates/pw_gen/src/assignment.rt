//! The code of assignments, and of declarations of locals.
ghost use Rattle.std.specs.Prelude.{◌≡◌, ◌+◌, ◌<◌, ◌++◌, option_map};
ghost use Rattle.pw_tree.specs.TypedExpressions.{typed_expression_of};
ghost use Rattle.pw_tree.specs.WellTypedStatements.{IfPresent};
ghost use Rattle.pw_code.specs.ExpressionCode.{expression_code};
ghost use Rattle.pw_code.specs.StatementCode as code;
ghost use Rattle.pw_genexpr.specs.Appends.{Appends};
ghost use Rattle.pw_genexpr.specs.Conditions.{IsWithinLimits, StandsIn};
ghost use Rattle.pw_gen.specs.Steps.StatementPieces.{store_local, store_variable, index_code, load_index, store_at, store_element, set_element_code};

use pw_base::NoMemory;
use pw_code::{Frame, Item};
use pw_genexpr::{
    emit_expr, held_slot, local_slot, put_address, put_check_index, put_hold, put_instruction,
    put_instructions,
};
use pw_isa::Inst;
use pw_isa::registers::{A0, SP, T0, T1, ZERO};
use pw_tree::{Ref, TExpr};

/// Appends the store of a register into a local's slot.
fn put_store_local(
    number: u32,
    source: u8,
    frame: &Frame,
    to: &mut Vec<Item>,
) -> Result<(), NoMemory>
    requires limits { IsWithinLimits frame.now }
    requires slot { number < frame.now.locals }
    requires register { source < 32 }
    ensures { Appends (store_local number source) to.old.items to.new.items result }
{
    let store = Inst::Sd {
        rs1: SP,
        rs2: source,
        imm: local_slot(number),
    };
    put_instruction(&store, to)
}

/// Appends the code that sets a local to a value, or to zero.
pub(crate) fn put_set_local(
    number: u32,
    value: &Option<TExpr>,
    frame: &Frame,
    to: &mut Vec<Item>,
) -> Result<(), NoMemory>
    requires limits { IsWithinLimits frame.now }
    requires slot { number < frame.now.locals }
    requires value { IfPresent (StandsIn frame.now 0) (option_map typed_expression_of value.now) }
    ensures { Appends (code.set_local_code frame.now number (option_map typed_expression_of value.now)) to.old.items to.new.items result }
{
    match value {
        None => put_store_local(number, ZERO, frame, to),
        Some(e) => {
            emit_expr(e, frame, 0, to)?;
            put_store_local(number, A0, frame, to)
        }
    }
}

/// Appends the store of a0 into a variable.
fn put_store_variable(x: &Ref, to: &mut Vec<Item>) -> Result<(), NoMemory>
    ensures { Appends (store_variable x.now) to.old.items to.new.items result }
{
    put_address(T0, x, to)?;
    let store = Inst::Sd {
        rs1: T0,
        rs2: A0,
        imm: 0,
    };
    put_instruction(&store, to)
}

/// Appends the code that sets a variable.
pub(crate) fn put_set_variable(
    x: &Ref,
    e: &TExpr,
    frame: &Frame,
    to: &mut Vec<Item>,
) -> Result<(), NoMemory>
    requires { StandsIn frame.now 0 (typed_expression_of e.now) }
    ensures { Appends (expression_code frame.now 0 (typed_expression_of e.now) ++ store_variable x.now) to.old.items to.new.items result }
{
    emit_expr(e, frame, 0, to)?;
    put_store_variable(x, to)
}

/// Appends the code that computes an index, checks it and holds it.
fn put_index(
    size: u32,
    line: u32,
    i: &TExpr,
    frame: &Frame,
    to: &mut Vec<Item>,
) -> Result<(), NoMemory>
    requires index { StandsIn frame.now 0 (typed_expression_of i.now) }
    ensures { Appends (index_code frame.now size line (typed_expression_of i.now)) to.old.items to.new.items result }
{
    emit_expr(i, frame, 0, to)?;
    put_check_index(size, line, to)?;
    put_hold(frame, 0, to)
}

/// Appends the code that loads the index that is held, as a distance in bytes.
fn put_load_index(frame: &Frame, to: &mut Vec<Item>) -> Result<(), NoMemory>
    requires { IsWithinLimits frame.now }
    ensures { Appends (load_index frame.now) to.old.items to.new.items result }
{
    let index = [
        Inst::Ld {
            rd: T1,
            rs1: SP,
            imm: held_slot(frame, 0),
        },
        Inst::Slli {
            rd: T1,
            rs1: T1,
            count: 3,
        },
    ];
    put_instructions(&index, to)
}

/// Appends the code that stores a0 into the element at the distance in t1.
fn put_store_at(a: &Ref, to: &mut Vec<Item>) -> Result<(), NoMemory>
    ensures { Appends (store_at a.now) to.old.items to.new.items result }
{
    put_address(T0, a, to)?;
    let store = [
        Inst::Add {
            rd: T0,
            rs1: T0,
            rs2: T1,
        },
        Inst::Sd {
            rs1: T0,
            rs2: A0,
            imm: 0,
        },
    ];
    put_instructions(&store, to)
}

/// Appends the code that stores a0 into the element of an array whose index is held.
fn put_store_element(a: &Ref, frame: &Frame, to: &mut Vec<Item>) -> Result<(), NoMemory>
    requires { IsWithinLimits frame.now }
    ensures { Appends (store_element frame.now a.now) to.old.items to.new.items result }
{
    put_load_index(frame, to)?;
    put_store_at(a, to)
}

/// Appends the code that sets an element of an array; its bound is the array's size, and the line of `[`.
pub(crate) fn put_set_element(
    a: &Ref,
    bound: (u32, u32),
    i: &TExpr,
    e: &TExpr,
    frame: &Frame,
    to: &mut Vec<Item>,
) -> Result<(), NoMemory>
    requires index { StandsIn frame.now 0 (typed_expression_of i.now) }
    requires value { StandsIn frame.now 1 (typed_expression_of e.now) }
    ensures { Appends (set_element_code frame.now a.now bound.0 bound.1 (typed_expression_of i.now) (typed_expression_of e.now)) to.old.items to.new.items result }
{
    let (size, line) = bound;
    put_index(size, line, i, frame, to)?;
    emit_expr(e, frame, 1, to)?;
    put_store_element(a, frame, to)
}
