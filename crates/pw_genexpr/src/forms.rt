//! The code of names, and what ends the code of a form whose operands are evaluated.
ghost use Rattle.std.specs.Prelude.{◌≡◌, ℕ, ◌+◌, ◌<◌, ◌≤◌, pos, [], ◌∷◌, ◌++◌};
ghost use Rattle.pw_base.specs.Limits.{locals, parameters};
ghost use Rattle.pw_isa.specs.declared.instruction.Inst.TheVariants.{Ld, Addi, Ecall};
ghost use Rattle.pw_isa.specs.Registers.{x0, sp, t0, a0, a7};
ghost use Rattle.pw_isa.specs.EnvironmentCalls.{input_call, output_call};
ghost use Rattle.pw_code.specs.Items.{instruction, address};
ghost use Rattle.pw_code.specs.Frames.{local_slot};
ghost use Rattle.pw_genexpr.specs.Appends.{Appends};
ghost use Rattle.pw_genexpr.specs.Conditions.{IsWithinLimits};
ghost use Rattle.pw_genexpr.specs.Steps.Emitting.{element_code, call_code, call_pointer_code};

use crate::checks::{put_check_index, put_check_nonzero};
use crate::put::{put_address, put_instruction, put_instructions};
use crate::slots::{local_slot, put_load_held};
use pw_base::NoMemory;
use pw_code::{Frame, Item};
use pw_isa::Inst;
use pw_isa::environment_calls::{INPUT, NULL_CALL_FAULT, OUTPUT};
use pw_isa::registers::{A0, A7, RA, SP, T0, ZERO};
use pw_tree::Ref;

/// The jump to the function whose address is in t0, which returns to the next word.
const CALL: Inst = Inst::Jalr {
    rd: RA,
    rs1: T0,
    imm: 0,
};

/// Appends the load of a local.
pub(crate) fn put_local(number: u32, to: &mut Vec<Item>) -> Result<(), NoMemory>
    requires { number ≤ locals }
    ensures { Appends (instruction (Ld a0 sp (local_slot number)) ∷ []) to.old.items to.new.items result }
{
    let load = Inst::Ld {
        rd: A0,
        rs1: SP,
        imm: local_slot(number),
    };
    put_instruction(&load, to)
}

/// Appends the load of a variable.
pub(crate) fn put_variable(variable: &Ref, to: &mut Vec<Item>) -> Result<(), NoMemory>
    ensures { Appends (address t0 variable.now ∷ instruction (Ld a0 t0 (pos 0)) ∷ []) to.old.items to.new.items result }
{
    put_address(T0, variable, to)?;
    let load = Inst::Ld {
        rd: A0,
        rs1: T0,
        imm: 0,
    };
    put_instruction(&load, to)
}

/// Appends the load of an array's element, whose index is in a0.
pub(crate) fn put_element(
    array: &Ref,
    size: u32,
    line: u32,
    to: &mut Vec<Item>,
) -> Result<(), NoMemory>
    ensures { Appends (element_code array.now size line) to.old.items to.new.items result }
{
    put_check_index(size, line, to)?;
    let bytes = Inst::Slli {
        rd: A0,
        rs1: A0,
        count: 3,
    };
    put_instruction(&bytes, to)?;
    put_address(T0, array, to)?;
    let load = [
        Inst::Add {
            rd: T0,
            rs1: T0,
            rs2: A0,
        },
        Inst::Ld {
            rd: A0,
            rs1: T0,
            imm: 0,
        },
    ];
    put_instructions(&load, to)
}

/// Appends the call of a function by its name, whose arguments are held.
pub(crate) fn put_call(
    function: &Ref,
    frame: &Frame,
    held: u32,
    count: u8,
    to: &mut Vec<Item>,
) -> Result<(), NoMemory>
    requires limits { IsWithinLimits frame.now }
    requires there { held + count ≤ frame.now.held }
    requires few { count ≤ parameters }
    ensures { Appends (call_code frame.now held count function.now) to.old.items to.new.items result }
{
    put_load_held(frame, held, A0, count, to)?;
    put_address(T0, function, to)?;
    put_instruction(&CALL, to)
}

/// Appends the call of the function whose address is in a0, and whose arguments are held.
pub(crate) fn put_call_pointer(
    frame: &Frame,
    held: u32,
    count: u8,
    line: u32,
    to: &mut Vec<Item>,
) -> Result<(), NoMemory>
    requires limits { IsWithinLimits frame.now }
    requires there { held + count ≤ frame.now.held }
    requires few { count ≤ parameters }
    ensures { Appends (call_pointer_code frame.now held count line) to.old.items to.new.items result }
{
    let callee = Inst::Addi {
        rd: T0,
        rs1: A0,
        imm: 0,
    };
    put_instruction(&callee, to)?;
    put_check_nonzero(T0, NULL_CALL_FAULT, line, to)?;
    put_load_held(frame, held, A0, count, to)?;
    put_instruction(&CALL, to)
}

/// Appends the environment call that takes a byte of the input.
pub(crate) fn put_input(to: &mut Vec<Item>) -> Result<(), NoMemory>
    ensures { Appends (instruction (Addi a7 x0 (pos input_call)) ∷ instruction Ecall ∷ []) to.old.items to.new.items result }
{
    let call = [
        Inst::Addi {
            rd: A7,
            rs1: ZERO,
            imm: INPUT as i32,
        },
        Inst::Ecall,
    ];
    put_instructions(&call, to)
}

/// Appends the environment call that puts a0 out.
pub(crate) fn put_output(to: &mut Vec<Item>) -> Result<(), NoMemory>
    ensures { Appends (instruction (Addi a7 x0 (pos output_call)) ∷ instruction Ecall ∷ []) to.old.items to.new.items result }
{
    let call = [
        Inst::Addi {
            rd: A7,
            rs1: ZERO,
            imm: OUTPUT as i32,
        },
        Inst::Ecall,
    ];
    put_instructions(&call, to)
}
