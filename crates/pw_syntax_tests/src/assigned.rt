//! A unit around an expression: its only statement assigns it.
use pw_tree::{DeclKind, Expr, StmtKind, Unit};

/// What stands before the expression.
pub(crate) const BEFORE: &[u8] = b"long f(void){x=";

/// How many tokens stand before it.
pub(crate) const TOKENS_BEFORE: u32 = 8;

/// What stands after it.
pub(crate) const AFTER: &[u8] = b";}";

/// The expression, and the number of the `;` after it.
pub(crate) fn assigned(unit: &Unit) -> Option<(&Expr, u32)> {
    if let [decl] = unit.decls.as_slice()
        && let DeclKind::Fun(_, _, body) = &decl.kind
        && let [statement] = body.as_slice()
        && let StmtKind::Set(_, None, value) = &statement.kind
    {
        return Some((value, statement.last));
    }
    None
}
