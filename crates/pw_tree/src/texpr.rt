//! Typed expressions.
ghost use Rattle.std.specs.Prelude.{◌≡◌, IfOk};

use crate::operator::{Bin, Un};
use crate::ty::{Ref, Ty};
use pw_base::NoMemory;
use sqlite_items::{Boxed, Items};
use std::alloc::Global;

/// An expression with its type and a line: that of the operator, of `[`, of a call's `(` or of `?`; where there is
/// none of these, of its first token.
#[cycle(texpr)]
#[derive(Drop)]
pub struct TExpr {
    pub ty: Ty,
    pub line: u32,
    pub kind: TKind,
}

/// The forms of typed expressions.
#[cycle(texpr)]
#[derive(Drop)]
pub enum TKind {
    Num(u64),
    /// The function's parameter or local of this number, parameters first, from 0.
    Local(u32),
    /// The value of a variable.
    Var(Ref),
    /// A function designator.
    Fun(Ref),
    /// An array, its size and the index, `a[i]`.
    Elem(Ref, u32, Boxed<TExpr>),
    Unary(Un, Boxed<TExpr>),
    /// An operator, whether it is the unsigned one, and its operands.
    Binary(Bin, bool, Boxed<TExpr>, Boxed<TExpr>),
    /// `c ? a : b`
    Cond(Boxed<TExpr>, Boxed<TExpr>, Boxed<TExpr>),
    /// A call of a function by its name, and the arguments.
    Call(Ref, Items<TExpr>),
    /// A call through a pointer, and the arguments.
    CallPtr(Boxed<TExpr>, Items<TExpr>),
    /// `__in()`
    Input,
    /// `__out(e)`
    Output(Boxed<TExpr>),
}

impl TExpr {
    /// An equal expression.
    #[cycle(copy_texpr)]
    pub fn copy(&self, alloc: Global) -> Result<TExpr, NoMemory>
        ensures { IfOk result (λ copy. copy ≡ self.now) }
    {
        Ok(TExpr {
            ty: self.ty,
            line: self.line,
            kind: self.kind.copy(alloc)?,
        })
    }

    /// An equal expression in a box of its own.
    #[cycle(copy_texpr)]
    fn copy_boxed(&self, alloc: Global) -> Result<Boxed<TExpr>, NoMemory>
        ensures { IfOk result (λ copy. copy ≡ self.now) }
    {
        Ok(Boxed::new(alloc, self.copy(alloc)?)?)
    }

    /// Equal expressions.
    #[cycle(copy_texpr)]
    pub(crate) fn copy_all(alloc: Global, exprs: &[TExpr]) -> Result<Items<TExpr>, NoMemory>
        ensures { IfOk result (λ copy. copy ≡ exprs.now) }
    {
        let mut copies = Items::new(alloc);
        for expr in exprs {
            copies.push(expr.copy(alloc)?)?;
        }
        Ok(copies)
    }

    /// An equal expression, or none.
    pub(crate) fn copy_option(
        alloc: Global,
        expr: &Option<TExpr>,
    ) -> Result<Option<TExpr>, NoMemory>
        ensures { IfOk result (λ copy. copy ≡ expr.now) }
    {
        match expr {
            Some(expr) => Ok(Some(expr.copy(alloc)?)),
            None => Ok(None),
        }
    }
}

impl TKind {
    /// An equal form.
    #[cycle(copy_texpr)]
    pub fn copy(&self, alloc: Global) -> Result<TKind, NoMemory>
        ensures { IfOk result (λ copy. copy ≡ self.now) }
    {
        Ok(match self {
            TKind::Num(value) => TKind::Num(*value),
            TKind::Local(number) => TKind::Local(*number),
            TKind::Var(name) => TKind::Var(name.copy(alloc)?),
            TKind::Fun(name) => TKind::Fun(name.copy(alloc)?),
            TKind::Elem(name, size, index) => {
                TKind::Elem(name.copy(alloc)?, *size, index.get().copy_boxed(alloc)?)
            }
            TKind::Unary(op, e) => TKind::Unary(*op, e.get().copy_boxed(alloc)?),
            TKind::Binary(op, unsigned, l, r) => TKind::Binary(
                *op,
                *unsigned,
                l.get().copy_boxed(alloc)?,
                r.get().copy_boxed(alloc)?,
            ),
            TKind::Cond(c, a, b) => TKind::Cond(
                c.get().copy_boxed(alloc)?,
                a.get().copy_boxed(alloc)?,
                b.get().copy_boxed(alloc)?,
            ),
            TKind::Call(name, arguments) => TKind::Call(
                name.copy(alloc)?,
                TExpr::copy_all(alloc, arguments.as_slice())?,
            ),
            TKind::CallPtr(callee, arguments) => TKind::CallPtr(
                callee.get().copy_boxed(alloc)?,
                TExpr::copy_all(alloc, arguments.as_slice())?,
            ),
            TKind::Input => TKind::Input,
            TKind::Output(e) => TKind::Output(e.get().copy_boxed(alloc)?),
        })
    }
}
