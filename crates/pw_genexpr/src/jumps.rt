//! Jumps over the code that follows them.
ghost use Rattle.std.specs.Prelude.{◌≡◌, ◌+◌, ◌<◌, ◌^◌, [], ◌∷◌};
ghost use Rattle.pw_code.specs.Items.{instruction};
ghost use Rattle.pw_code.specs.Pieces.{skip, unless_zero, unless_nonzero};
ghost use Rattle.pw_genexpr.specs.Appends.{Appends};

use crate::put::put_instruction;
use pw_base::NoMemory;
use pw_code::Item;
use pw_isa::Inst;
use pw_isa::registers::{A0, ZERO};

/// The jump over the `words` words that follow it.
fn skip(words: u32) -> Inst
    requires { words + 1 < 2 ^ 18 }
    ensures { instruction result ≡ skip words }
{
    Inst::Jal {
        rd: ZERO,
        imm: (4 * (words + 1)) as i32,
    }
}

/// Appends a jump over the `words` words that follow it.
pub fn put_skip(words: u32, to: &mut Vec<Item>) -> Result<(), NoMemory>
    requires { words + 1 < 2 ^ 18 }
    ensures { Appends (skip words ∷ []) to.old.items to.new.items result }
{
    put_instruction(&skip(words), to)
}

/// Appends what lets the `words` words that follow run only where a0 is not zero.
pub fn put_unless_zero(words: u32, to: &mut Vec<Item>) -> Result<(), NoMemory>
    requires { words + 1 < 2 ^ 18 }
    ensures { Appends (unless_zero words) to.old.items to.new.items result }
{
    let round = Inst::Bne {
        rs1: A0,
        rs2: ZERO,
        imm: 8,
    };
    put_instruction(&round, to)?;
    put_skip(words, to)
}

/// Appends what lets the `words` words that follow run only where a0 is zero.
pub fn put_unless_nonzero(words: u32, to: &mut Vec<Item>) -> Result<(), NoMemory>
    requires { words + 1 < 2 ^ 18 }
    ensures { Appends (unless_nonzero words) to.old.items to.new.items result }
{
    let round = Inst::Beq {
        rs1: A0,
        rs2: ZERO,
        imm: 8,
    };
    put_instruction(&round, to)?;
    put_skip(words, to)
}
