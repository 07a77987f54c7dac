//! Conditions and jumps of statements.
ghost use Rattle.std.specs.Prelude.{◌≡◌, ◌+◌, ◌<◌, [], ◌∷◌, ◌++◌, option_map};
ghost use Rattle.pw_tree.specs.TypedExpressions.{typed_expression_of};
ghost use Rattle.pw_tree.specs.WellTypedStatements.{IfPresent};
ghost use Rattle.pw_isa.specs.declared.instruction.Inst.TheVariants.{Jal};
ghost use Rattle.pw_isa.specs.Encoding.{IsEncodable};
ghost use Rattle.pw_isa.specs.Registers.{x0};
ghost use Rattle.pw_code.specs.Items.{instruction};
ghost use Rattle.pw_code.specs.Pieces as pieces;
ghost use Rattle.pw_code.specs.StatementCode as code;
ghost use Rattle.pw_genexpr.specs.Appends.{Appends};
ghost use Rattle.pw_genexpr.specs.Conditions.{StandsIn};
ghost use Rattle.pw_gen.specs.Steps.Measuring.{reach};
ghost use Rattle.pw_gen.specs.Steps.StatementPieces.{only_if, jump_if_nonzero, repeat_while};

use pw_base::NoMemory;
use pw_code::{Frame, Item};
use pw_genexpr::{emit_expr, put_instruction, put_unless_zero};
use pw_isa::Inst;
use pw_isa::registers::{A0, ZERO};
use pw_tree::TExpr;

/// Appends a jump over so many bytes, forward or back.
fn put_jal(distance: i32, to: &mut Vec<Item>) -> Result<(), NoMemory>
    requires { IsEncodable (Jal x0 distance) }
    ensures { Appends (instruction (Jal x0 distance) ∷ []) to.old.items to.new.items result }
{
    let jump = Inst::Jal {
        rd: ZERO,
        imm: distance,
    };
    put_instruction(&jump, to)
}

/// Appends a jump that stands at the word `from` and goes to the word `target`.
pub(crate) fn put_jump(from: u32, target: u32, to: &mut Vec<Item>) -> Result<(), NoMemory>
    requires from { from < reach }
    requires target { target < reach }
    ensures { Appends (pieces.jump from target ∷ []) to.old.items to.new.items result }
{
    if target < from {
        put_jal(-((4 * (from - target)) as i32), to)
    } else {
        put_jal((4 * (target - from)) as i32, to)
    }
}

/// Appends a condition, and what lets the `words` words that follow run only where it holds.
pub(crate) fn put_only_if(
    c: &TExpr,
    words: u32,
    frame: &Frame,
    to: &mut Vec<Item>,
) -> Result<(), NoMemory>
    requires condition { StandsIn frame.now 0 (typed_expression_of c.now) }
    requires near { words + 1 < reach }
    ensures { Appends (only_if frame.now (typed_expression_of c.now) words) to.old.items to.new.items result }
{
    emit_expr(c, frame, 0, to)?;
    put_unless_zero(words, to)
}

/// Appends the condition of a `for`, if there is one.
pub(crate) fn put_for_condition(
    c: &Option<TExpr>,
    words: u32,
    frame: &Frame,
    to: &mut Vec<Item>,
) -> Result<(), NoMemory>
    requires condition { IfPresent (StandsIn frame.now 0) (option_map typed_expression_of c.now) }
    requires near { words + 1 < reach }
    ensures { Appends (code.condition_code frame.now (option_map typed_expression_of c.now) words) to.old.items to.new.items result }
{
    match c {
        None => Ok(()),
        Some(c) => put_only_if(c, words, frame, to),
    }
}

/// Appends what takes a jump from the word `from` to the word `target` where a0 is not zero.
fn put_jump_if_nonzero(from: u32, target: u32, to: &mut Vec<Item>) -> Result<(), NoMemory>
    requires from { from < reach }
    requires target { target < reach }
    ensures { Appends (jump_if_nonzero from target) to.old.items to.new.items result }
{
    let past = Inst::Beq {
        rs1: A0,
        rs2: ZERO,
        imm: 8,
    };
    put_instruction(&past, to)?;
    put_jump(from, target, to)
}

/// Appends a condition, and a jump from the word `from` to the word `target` that is taken where it holds.
pub(crate) fn put_repeat_while(
    c: &TExpr,
    from: u32,
    target: u32,
    frame: &Frame,
    to: &mut Vec<Item>,
) -> Result<(), NoMemory>
    requires condition { StandsIn frame.now 0 (typed_expression_of c.now) }
    requires from { from < reach }
    requires target { target < reach }
    ensures { Appends (repeat_while frame.now (typed_expression_of c.now) from target) to.old.items to.new.items result }
{
    emit_expr(c, frame, 0, to)?;
    put_jump_if_nonzero(from, target, to)
}

/// Appends the code of a value, if there is one.
pub(crate) fn put_value(
    e: &Option<TExpr>,
    frame: &Frame,
    to: &mut Vec<Item>,
) -> Result<(), NoMemory>
    requires { IfPresent (StandsIn frame.now 0) (option_map typed_expression_of e.now) }
    ensures { Appends (code.value_code frame.now (option_map typed_expression_of e.now)) to.old.items to.new.items result }
{
    match e {
        None => Ok(()),
        Some(e) => emit_expr(e, frame, 0, to),
    }
}
