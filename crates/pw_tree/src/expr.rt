//! Expressions as they are written.
ghost use Rattle.std.specs.Prelude.{◌≡◌, IfOk};

use crate::operator::{Bin, Un};
use pw_base::{Name, NoMemory};
use sqlite_items::{Boxed, Items};
use std::alloc::Global;

/// An expression and where it stands: its first and last token, counted from 0 in the unit, and a line, from 1.
///
/// The line is that of the operator, of `[`, of a call's `(` or of `?`; where there is none of these, of the first token.
/// Brackets round an expression leave no node: it has its own first and last token, and what stands round it counts them.
#[cycle(expr)]
#[derive(Drop)]
pub struct Expr {
    pub first: u32,
    pub last: u32,
    pub line: u32,
    pub kind: ExprKind,
}

/// The forms of expressions (C17, 6.5).
#[cycle(expr)]
#[derive(Drop)]
pub enum ExprKind {
    /// A constant, and whether it is unsigned.
    Num(u64, bool),
    /// An identifier.
    Word(Name),
    Unary(Un, Boxed<Expr>),
    Binary(Bin, Boxed<Expr>, Boxed<Expr>),
    /// `c ? a : b`
    Cond(Boxed<Expr>, Boxed<Expr>, Boxed<Expr>),
    /// A callee and its arguments.
    Call(Boxed<Expr>, Items<Expr>),
    /// A base and its index, `a[i]`.
    Index(Boxed<Expr>, Boxed<Expr>),
    /// `__in()`
    Input,
    /// `__out(e)`
    Output(Boxed<Expr>),
}

impl Expr {
    /// An equal expression.
    #[cycle(copy_expr)]
    pub fn copy(&self, alloc: Global) -> Result<Expr, NoMemory>
        ensures { IfOk result (λ copy. copy ≡ self.now) }
    {
        Ok(Expr {
            first: self.first,
            last: self.last,
            line: self.line,
            kind: self.kind.copy(alloc)?,
        })
    }

    /// An equal expression in a box of its own.
    #[cycle(copy_expr)]
    fn copy_boxed(&self, alloc: Global) -> Result<Boxed<Expr>, NoMemory>
        ensures { IfOk result (λ copy. copy ≡ self.now) }
    {
        Ok(Boxed::new(alloc, self.copy(alloc)?)?)
    }

    /// Equal expressions.
    #[cycle(copy_expr)]
    pub(crate) fn copy_all(alloc: Global, exprs: &[Expr]) -> Result<Items<Expr>, NoMemory>
        ensures { IfOk result (λ copy. copy ≡ exprs.now) }
    {
        let mut copies = Items::new(alloc);
        for expr in exprs {
            copies.push(expr.copy(alloc)?)?;
        }
        Ok(copies)
    }

    /// An equal expression, or none.
    pub(crate) fn copy_option(alloc: Global, expr: &Option<Expr>) -> Result<Option<Expr>, NoMemory>
        ensures { IfOk result (λ copy. copy ≡ expr.now) }
    {
        match expr {
            Some(expr) => Ok(Some(expr.copy(alloc)?)),
            None => Ok(None),
        }
    }
}

impl ExprKind {
    /// An equal form.
    #[cycle(copy_expr)]
    pub fn copy(&self, alloc: Global) -> Result<ExprKind, NoMemory>
        ensures { IfOk result (λ copy. copy ≡ self.now) }
    {
        Ok(match self {
            ExprKind::Num(value, unsigned) => ExprKind::Num(*value, *unsigned),
            ExprKind::Word(name) => ExprKind::Word(name.copy(alloc)?),
            ExprKind::Unary(op, e) => ExprKind::Unary(*op, e.get().copy_boxed(alloc)?),
            ExprKind::Binary(op, l, r) => {
                ExprKind::Binary(*op, l.get().copy_boxed(alloc)?, r.get().copy_boxed(alloc)?)
            }
            ExprKind::Cond(c, a, b) => ExprKind::Cond(
                c.get().copy_boxed(alloc)?,
                a.get().copy_boxed(alloc)?,
                b.get().copy_boxed(alloc)?,
            ),
            ExprKind::Call(callee, arguments) => ExprKind::Call(
                callee.get().copy_boxed(alloc)?,
                Expr::copy_all(alloc, arguments.as_slice())?,
            ),
            ExprKind::Index(base, index) => {
                ExprKind::Index(
                    base.get().copy_boxed(alloc)?,
                    index.get().copy_boxed(alloc)?,
                )
            }
            ExprKind::Input => ExprKind::Input,
            ExprKind::Output(e) => ExprKind::Output(e.get().copy_boxed(alloc)?),
        })
    }
}
