//! The places in which expressions stand.

use pw_tree::Ty;

/// Where an expression stands, by which it is judged.
#[derive(Clone, Copy, PartialEq, Eq, Debug)]
pub enum Role {
    /// As a statement.
    Statement,
    /// Where a value is needed.
    Value,
    /// As a callee.
    Callee,
    /// As the base of an index.
    Base,
    /// As an argument of this type, where the callee has a parameter there.
    Argument(Option<Ty>),
    /// As what `__out` writes.
    Written,
    /// As what is assigned to this type, where the target has one.
    Assigned(Option<Ty>),
}
