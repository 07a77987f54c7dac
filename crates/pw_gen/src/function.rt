//! The code of a function.
ghost use Rattle.std.specs.Prelude.{◌≡◌, ◌+◌, ◌<◌, ◌≤◌, length, pos, IfOk};
ghost use Rattle.pw_base.specs.Limits as limits;
ghost use Rattle.pw_tree.specs.Units.{typed_function_of};
ghost use Rattle.pw_code.specs.Frames.{frame_bytes};
ghost use Rattle.pw_code.specs.FunctionCode as code;
ghost use Rattle.pw_code.specs.Items.{items};
ghost use Rattle.pw_genexpr.specs.Appends.{Appends};
ghost use Rattle.pw_genexpr.specs.Conditions.{IsWithinLimits};
ghost use Rattle.pw_gen.specs.Steps.Functions.{IsOfUnit, open_frame, falls_off_and_closes, place_of};

use crate::place::{Place, Targets};
use crate::size::statements_words;
use crate::statement::emit_statements;
use pw_base::NoMemory;
use pw_code::{Frame, Item};
use pw_genexpr::{
    fault_words, held_slot, local_slot, put_check_nonzero, put_instruction, put_instructions,
};
use pw_isa::Inst;
use pw_isa::environment_calls::DEPTH_FAULT;
use pw_isa::registers::{A0, RA, S1, SP, ZERO};
use pw_tree::TFun;
use std::alloc::Global;

/// The frame of a function.
fn frame_of(f: &TFun) -> Frame
    ensures { result ≡ code.frame_of (typed_function_of f.now) }
{
    Frame {
        locals: f.locals,
        held: f.held,
    }
}

/// The bytes of a frame.
fn frame_bytes(frame: &Frame) -> i32
    requires { IsWithinLimits frame.now }
    ensures bytes { result ≡ pos (frame_bytes frame.now) }
    ensures few { frame_bytes frame.now ≤ 1776 }
{
    ((8 * (frame.locals + frame.held + 1) + 15) / 16 * 16) as i32
}

/// Appends what takes a call and opens its frame.
fn put_open_frame(frame: &Frame, to: &mut Vec<Item>) -> Result<(), NoMemory>
    requires { IsWithinLimits frame.now }
    ensures { Appends (open_frame frame.now) to.old.items to.new.items result }
{
    let opens = [
        Inst::Addi {
            rd: S1,
            rs1: S1,
            imm: -1,
        },
        Inst::Addi {
            rd: SP,
            rs1: SP,
            imm: -frame_bytes(frame),
        },
        Inst::Sd {
            rs1: SP,
            rs2: RA,
            imm: held_slot(frame, frame.held),
        },
    ];
    put_instructions(&opens, to)
}

/// Appends the stores of `count` parameters, from the number `number` on, into their slots.
fn put_parameters(number: u8, count: u8, to: &mut Vec<Item>) -> Result<(), NoMemory>
    requires { number + count ≤ limits.parameters }
    ensures { Appends (code.store_parameters number count) to.old.items to.new.items result }
{
    if count == 0 {
        return Ok(());
    }
    let store = Inst::Sd {
        rs1: SP,
        rs2: A0 + number,
        imm: local_slot(u32::from(number)),
    };
    put_instruction(&store, to)?;
    put_parameters(number + 1, count - 1, to)
}

/// Appends what stands before the body of a function.
fn put_opens(f: &TFun, frame: &Frame, to: &mut Vec<Item>) -> Result<(), NoMemory>
    requires function { IsOfUnit (typed_function_of f.now) }
    requires frame { frame.now ≡ code.frame_of (typed_function_of f.now) }
    ensures { Appends (code.opens (typed_function_of f.now)) to.old.items to.new.items result }
{
    put_check_nonzero(S1, DEPTH_FAULT, f.line, to)?;
    put_open_frame(frame, to)?;
    put_parameters(0, f.sig.params.len() as u8, to)
}

/// How many words stand before the body of a function.
fn opens_words(f: &TFun) -> u32
    requires { IsOfUnit (typed_function_of f.now) }
    ensures { result ≡ code.opens_words (typed_function_of f.now) }
{
    4 + fault_words(f.line) + f.sig.params.len() as u32
}

/// Appends what stands after the body of a function.
fn put_closes(frame: &Frame, to: &mut Vec<Item>) -> Result<(), NoMemory>
    requires { IsWithinLimits frame.now }
    ensures { Appends (falls_off_and_closes frame.now) to.old.items to.new.items result }
{
    let closes = [
        Inst::Addi {
            rd: A0,
            rs1: ZERO,
            imm: 0,
        },
        Inst::Ld {
            rd: RA,
            rs1: SP,
            imm: held_slot(frame, frame.held),
        },
        Inst::Addi {
            rd: SP,
            rs1: SP,
            imm: frame_bytes(frame),
        },
        Inst::Addi {
            rd: S1,
            rs1: S1,
            imm: 1,
        },
        Inst::Jalr {
            rd: ZERO,
            rs1: RA,
            imm: 0,
        },
    ];
    put_instructions(&closes, to)
}

/// Where the body of a function stands.
fn body_place(f: &TFun) -> Place
    requires { IsOfUnit (typed_function_of f.now) }
    ensures { result ≡ place_of (typed_function_of f.now) }
{
    let opens = opens_words(f);
    let end = opens + (statements_words(f.body.as_slice()) + 1);
    Place {
        frame: frame_of(f),
        targets: Targets {
            break_to: end,
            continue_to: end,
            return_to: end,
        },
        at: opens,
    }
}

/// Appends the code of a function.
fn put_function(f: &TFun, to: &mut Vec<Item>) -> Result<(), NoMemory>
    requires { IsOfUnit (typed_function_of f.now) }
    ensures { Appends (code.function_code (typed_function_of f.now)) to.old.items to.new.items result }
{
    let place = body_place(f);
    put_opens(f, &place.frame, to)?;
    emit_statements(f.body.as_slice(), place, to)?;
    put_closes(&place.frame, to)
}

/// The items of a function.
pub(crate) fn function_items(alloc: Global, f: &TFun) -> Result<Vec<Item>, NoMemory>
    requires { IsOfUnit (typed_function_of f.now) }
    ensures { IfOk result (λ it. it.items ≡ items (code.function_code (typed_function_of f.now))) }
{
    let mut items = Vec::new(alloc);
    put_function(f, &mut items)?;
    Ok(items)
}
