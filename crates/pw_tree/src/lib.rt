//! The trees of a unit, untyped and typed, and in `specs/` what a project of typed units means.
#![tactic(auto)]

mod copies;
mod decl;
mod expr;
mod laws;
mod nested;
mod operator;
mod stmt;
mod texpr;
mod tstmt;
mod tunit;
mod ty;

pub use decl::{Decl, DeclKind, InitItem, InitKind, Linkage, Param, Unit};
pub use expr::{Expr, ExprKind};
pub use laws::{an_end_stays_for_every_greater_bound, output_grows_with_the_bound};
pub use operator::{Bin, Un};
pub use stmt::{Stmt, StmtKind};
pub use texpr::{TExpr, TKind};
pub use tstmt::TStmt;
pub use tunit::{Ext, Init, TFun, TUnit, TVar};
pub use ty::{Ref, Sig, Ty};
