//! The operations of the computational instructions and the conditions of the branches, each named as its instruction on two
//! registers.

ghost use Rattle.std.specs.Prelude.{◌≡◌};
ghost use Rattle.pw_hart.specs.Steps.Operations.{result_of, holds_of};

use crate::integer::{add, sll, slt, sltu, sra, srl, sub};
use crate::multiply::{
    div, divu, divuw, divw, mul, mulh, mulhsu, mulhu, mulw, rem, remu, remuw, remw,
};
use crate::word::{addw, sllw, sraw, srlw, subw};

/// An operation on two numbers of 64 bits.
#[derive(Clone, Copy)]
pub(crate) enum Operation {
    Add,
    Sub,
    Sll,
    Slt,
    Sltu,
    Xor,
    Srl,
    Sra,
    Or,
    And,
    Addw,
    Subw,
    Sllw,
    Srlw,
    Sraw,
    Mul,
    Mulh,
    Mulhsu,
    Mulhu,
    Div,
    Divu,
    Rem,
    Remu,
    Mulw,
    Divw,
    Divuw,
    Remw,
    Remuw,
}

impl Operation {
    /// What it gives for two numbers.
    pub(crate) fn result(self, a: u64, b: u64) -> u64
        ensures { result ≡ result_of self a b }
    {
        match self {
            Operation::Add => add(a, b),
            Operation::Sub => sub(a, b),
            Operation::Sll => sll(a, b),
            Operation::Slt => slt(a, b),
            Operation::Sltu => sltu(a, b),
            Operation::Xor => a ^ b,
            Operation::Srl => srl(a, b),
            Operation::Sra => sra(a, b),
            Operation::Or => a | b,
            Operation::And => a & b,
            Operation::Addw => addw(a, b),
            Operation::Subw => subw(a, b),
            Operation::Sllw => sllw(a, b),
            Operation::Srlw => srlw(a, b),
            Operation::Sraw => sraw(a, b),
            Operation::Mul => mul(a, b),
            Operation::Mulh => mulh(a, b),
            Operation::Mulhsu => mulhsu(a, b),
            Operation::Mulhu => mulhu(a, b),
            Operation::Div => div(a, b),
            Operation::Divu => divu(a, b),
            Operation::Rem => rem(a, b),
            Operation::Remu => remu(a, b),
            Operation::Mulw => mulw(a, b),
            Operation::Divw => divw(a, b),
            Operation::Divuw => divuw(a, b),
            Operation::Remw => remw(a, b),
            Operation::Remuw => remuw(a, b),
        }
    }
}

/// A condition of two numbers of 64 bits.
#[derive(Clone, Copy)]
pub(crate) enum Condition {
    Eq,
    Ne,
    Lt,
    Ge,
    Ltu,
    Geu,
}

impl Condition {
    /// Whether it holds of two numbers.
    pub(crate) fn holds(self, a: u64, b: u64) -> bool
        ensures { result ≡ holds_of self a b }
    {
        match self {
            Condition::Eq => a == b,
            Condition::Ne => a != b,
            Condition::Lt => slt(a, b) == 1,
            Condition::Ge => slt(a, b) == 0,
            Condition::Ltu => a < b,
            Condition::Geu => a >= b,
        }
    }
}
