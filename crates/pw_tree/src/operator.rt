//! The operators of expressions.

/// A unary operator, in C's words (C17, 6.5.3.3).
#[derive(Clone, Copy, PartialEq, Eq, Debug)]
pub enum Un {
    /// `-`
    Neg,
    /// `+`
    Plus,
    /// `~`
    Not,
    /// `!`
    Bang,
}

/// A binary operator (C17, 6.5.5 to 6.5.14).
#[derive(Clone, Copy, PartialEq, Eq, Debug)]
pub enum Bin {
    Mul,
    Div,
    Rem,
    Add,
    Sub,
    Shl,
    Shr,
    Lt,
    Gt,
    Le,
    Ge,
    Eq,
    Ne,
    And,
    Xor,
    Or,
    /// `&&`, whose right operand may be left out.
    AndAnd,
    /// `||`, whose right operand may be left out.
    OrOr,
}
