//! Checked faults: the code that ends a run, and the tests that go past it.
ghost use Rattle.std.specs.Prelude.{◌≡◌, ◌<◌, ◌≤◌};
ghost use Rattle.pw_isa.specs.declared.instruction.Inst.TheVariants.{Bne};
ghost use Rattle.pw_isa.specs.Registers.{x0};
ghost use Rattle.pw_base.specs.Limits.{array_elements};
ghost use Rattle.pw_code.specs.Pieces.{fault, fault_words, past, check_index, check_index_words};
ghost use Rattle.pw_genexpr.specs.Appends.{Appends};

use crate::immediate::{immediate_words, put_load_immediate};
use crate::put::{put_instruction, put_instructions};
use pw_base::NoMemory;
use pw_code::Item;
use pw_isa::Inst;
use pw_isa::environment_calls::{FAULT, INDEX_FAULT};
use pw_isa::registers::{A0, A1, A7, T1, ZERO};

/// How many words the code of a checked fault in this line is.
pub fn fault_words(line: u32) -> u32
    ensures words { result ≡ fault_words line }
    ensures few { result ≤ 7 }
{
    3 + immediate_words(u64::from(line))
}

/// How many words the check of an index against this size is.
pub fn check_index_words(size: u32, line: u32) -> u32
    requires { size ≤ array_elements }
    ensures words { result ≡ check_index_words size line }
    ensures few { result ≤ 10 }
{
    immediate_words(u64::from(size)) + 1 + fault_words(line)
}

/// Appends the code of a checked fault of this kind in this line.
pub fn put_fault(kind: u8, line: u32, to: &mut Vec<Item>) -> Result<(), NoMemory>
    ensures { Appends (fault kind line) to.old.items to.new.items result }
{
    let kind = Inst::Addi {
        rd: A0,
        rs1: ZERO,
        imm: i32::from(kind),
    };
    put_instruction(&kind, to)?;
    put_load_immediate(A1, u64::from(line), to)?;
    let ends = [
        Inst::Addi {
            rd: A7,
            rs1: ZERO,
            imm: FAULT as i32,
        },
        Inst::Ecall,
    ];
    put_instructions(&ends, to)
}

/// Appends what ends the run with a checked fault of this kind where this register is zero.
pub fn put_check_nonzero(
    register: u8,
    kind: u8,
    line: u32,
    to: &mut Vec<Item>,
) -> Result<(), NoMemory>
    requires { register < 32 }
    ensures { Appends (past (Bne register x0) (fault kind line)) to.old.items to.new.items result }
{
    let past = Inst::Bne {
        rs1: register,
        rs2: ZERO,
        imm: (4 * (fault_words(line) + 1)) as i32,
    };
    put_instruction(&past, to)?;
    put_fault(kind, line, to)
}

/// Appends the check of an index in a0 against the size of its array, as unsigned numbers.
pub fn put_check_index(size: u32, line: u32, to: &mut Vec<Item>) -> Result<(), NoMemory>
    ensures { Appends (check_index size line) to.old.items to.new.items result }
{
    put_load_immediate(T1, u64::from(size), to)?;
    let past = Inst::Bltu {
        rs1: A0,
        rs2: T1,
        imm: (4 * (fault_words(line) + 1)) as i32,
    };
    put_instruction(&past, to)?;
    put_fault(INDEX_FAULT, line, to)
}
