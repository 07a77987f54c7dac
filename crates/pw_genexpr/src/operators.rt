//! The code of operators.
ghost use Rattle.std.specs.Prelude.{◌≡◌, ℕ, ◌+◌, ◌≤◌, [], ◌∷◌, ◌++◌};
ghost use Rattle.pw_isa.specs.Encoding.{IsEncodable};
ghost use Rattle.pw_code.specs.Items.{instruction};
ghost use Rattle.pw_code.specs.Pieces.{unary_code, unary_words, binary_code, check_divisor, less, shift_right, divide, remainder};
ghost use Rattle.pw_code.specs.ExpressionCode.{operator_words};
ghost use Rattle.pw_genexpr.specs.Appends.{Appends};
ghost use Rattle.pw_genexpr.specs.Steps.Emitting.{IsLogical};

use crate::checks::{fault_words, put_check_nonzero};
use crate::put::{put_instruction, put_instructions};
use pw_base::NoMemory;
use pw_code::Item;
use pw_isa::Inst;
use pw_isa::environment_calls::DIVISION_FAULT;
use pw_isa::registers::{A0, T0, ZERO};
use pw_tree::{Bin, Un};

/// The truth of a0, as 0 or 1.
pub(crate) const TRUTH: Inst = Inst::Sltu {
    rd: A0,
    rs1: ZERO,
    rs2: A0,
};

/// The other truth value.
const FLIP: Inst = Inst::Xori {
    rd: A0,
    rs1: A0,
    imm: 1,
};

/// Appends a unary operator on a0.
pub(crate) fn put_unary(op: Un, to: &mut Vec<Item>) -> Result<(), NoMemory>
    ensures { Appends (unary_code op) to.old.items to.new.items result }
{
    match op {
        Un::Neg => put_instruction(
            &Inst::Sub {
                rd: A0,
                rs1: ZERO,
                rs2: A0,
            },
            to,
        ),
        Un::Not => put_instruction(
            &Inst::Xori {
                rd: A0,
                rs1: A0,
                imm: -1,
            },
            to,
        ),
        Un::Bang => put_instruction(
            &Inst::Sltiu {
                rd: A0,
                rs1: A0,
                imm: 1,
            },
            to,
        ),
        Un::Plus => Ok(()),
    }
}

/// The operators that need not evaluate their right operand.
pub(crate) enum Logical {
    And,
    Or,
}

/// Which of these an operator is, if it is one.
pub(crate) fn logical_of(op: Bin) -> Option<Logical>
    ensures { IsLogical op result }
{
    match op {
        Bin::AndAnd => Some(Logical::And),
        Bin::OrOr => Some(Logical::Or),
        Bin::Mul
        | Bin::Div
        | Bin::Rem
        | Bin::Add
        | Bin::Sub
        | Bin::Shl
        | Bin::Shr
        | Bin::Lt
        | Bin::Gt
        | Bin::Le
        | Bin::Ge
        | Bin::Eq
        | Bin::Ne
        | Bin::And
        | Bin::Xor
        | Bin::Or => None,
    }
}

/// How many words a unary operator is.
pub(crate) fn unary_words(op: Un) -> u32
    ensures words { result ≡ unary_words op }
    ensures few { result ≤ 1 }
{
    match op {
        Un::Neg | Un::Not | Un::Bang => 1,
        Un::Plus => 0,
    }
}

/// The comparison of two registers.
fn less(unsigned: bool, rs1: u8, rs2: u8) -> Inst
    ensures { result ≡ less unsigned 10 rs1 rs2 }
{
    if unsigned {
        Inst::Sltu { rd: A0, rs1, rs2 }
    } else {
        Inst::Slt { rd: A0, rs1, rs2 }
    }
}

/// The shift of t0 to the right by a0.
fn shift_right(unsigned: bool) -> Inst
    ensures { result ≡ shift_right unsigned 10 5 10 }
{
    if unsigned {
        Inst::Srl {
            rd: A0,
            rs1: T0,
            rs2: A0,
        }
    } else {
        Inst::Sra {
            rd: A0,
            rs1: T0,
            rs2: A0,
        }
    }
}

/// The division of t0 by a0.
fn divide(unsigned: bool) -> Inst
    ensures { result ≡ divide unsigned 10 5 10 }
{
    if unsigned {
        Inst::Divu {
            rd: A0,
            rs1: T0,
            rs2: A0,
        }
    } else {
        Inst::Div {
            rd: A0,
            rs1: T0,
            rs2: A0,
        }
    }
}

/// The remainder of that division.
fn remainder(unsigned: bool) -> Inst
    ensures { result ≡ remainder unsigned 10 5 10 }
{
    if unsigned {
        Inst::Remu {
            rd: A0,
            rs1: T0,
            rs2: A0,
        }
    } else {
        Inst::Rem {
            rd: A0,
            rs1: T0,
            rs2: A0,
        }
    }
}

/// Appends the check of a divisor in a0, and then this division.
fn put_division(division: &Inst, line: u32, to: &mut Vec<Item>) -> Result<(), NoMemory>
    requires { IsEncodable division.now }
    ensures { Appends (check_divisor line ++ instruction division.now ∷ []) to.old.items to.new.items result }
{
    put_check_nonzero(A0, DIVISION_FAULT, line, to)?;
    put_instruction(division, to)
}

/// Appends two instructions.
fn put_two(first: Inst, second: Inst, to: &mut Vec<Item>) -> Result<(), NoMemory>
    requires first { IsEncodable first }
    requires second { IsEncodable second }
    ensures { Appends (instruction first ∷ instruction second ∷ []) to.old.items to.new.items result }
{
    put_instructions(&[first, second], to)
}

/// The instruction that compares t0 and a0 to zero where they are the same.
const DIFFERENCE: Inst = Inst::Xor {
    rd: A0,
    rs1: T0,
    rs2: A0,
};

/// Appends a binary operator on t0 and a0.
pub(crate) fn put_binary(
    op: Bin,
    unsigned: bool,
    line: u32,
    to: &mut Vec<Item>,
) -> Result<(), NoMemory>
    ensures { Appends (binary_code line op unsigned) to.old.items to.new.items result }
{
    match op {
        Bin::Mul => put_instruction(
            &Inst::Mul {
                rd: A0,
                rs1: T0,
                rs2: A0,
            },
            to,
        ),
        Bin::Div => put_division(&divide(unsigned), line, to),
        Bin::Rem => put_division(&remainder(unsigned), line, to),
        Bin::Add => put_instruction(
            &Inst::Add {
                rd: A0,
                rs1: T0,
                rs2: A0,
            },
            to,
        ),
        Bin::Sub => put_instruction(
            &Inst::Sub {
                rd: A0,
                rs1: T0,
                rs2: A0,
            },
            to,
        ),
        Bin::Shl => put_instruction(
            &Inst::Sll {
                rd: A0,
                rs1: T0,
                rs2: A0,
            },
            to,
        ),
        Bin::Shr => put_instruction(&shift_right(unsigned), to),
        Bin::Lt => put_instruction(&less(unsigned, T0, A0), to),
        Bin::Gt => put_instruction(&less(unsigned, A0, T0), to),
        Bin::Le => put_two(less(unsigned, A0, T0), FLIP, to),
        Bin::Ge => put_two(less(unsigned, T0, A0), FLIP, to),
        Bin::Eq => put_two(
            DIFFERENCE,
            Inst::Sltiu {
                rd: A0,
                rs1: A0,
                imm: 1,
            },
            to,
        ),
        Bin::Ne => put_two(DIFFERENCE, TRUTH, to),
        Bin::And => put_instruction(
            &Inst::And {
                rd: A0,
                rs1: T0,
                rs2: A0,
            },
            to,
        ),
        Bin::Xor => put_instruction(&DIFFERENCE, to),
        Bin::Or => put_instruction(
            &Inst::Or {
                rd: A0,
                rs1: T0,
                rs2: A0,
            },
            to,
        ),
        Bin::AndAnd | Bin::OrOr => Ok(()),
    }
}

/// How many words a binary operator is beside its operands.
pub(crate) fn operator_words(op: Bin, line: u32) -> u32
    ensures words { (left right : ℕ) → operator_words line op left right ≡ left + right + result }
    ensures few { result ≤ 11 }
{
    match op {
        Bin::Div | Bin::Rem => 4 + fault_words(line),
        Bin::Le | Bin::Ge | Bin::Eq | Bin::Ne | Bin::OrOr => 4,
        Bin::AndAnd
        | Bin::Mul
        | Bin::Add
        | Bin::Sub
        | Bin::Shl
        | Bin::Shr
        | Bin::Lt
        | Bin::Gt
        | Bin::And
        | Bin::Xor
        | Bin::Or => 3,
    }
}
