//! Typed statements.
ghost use Rattle.std.specs.Prelude.{◌≡◌, IfOk, slice_get, option_copied, [], ◌∷◌};
ghost use Rattle.pw_tree.specs.declared.tstmt.TStmt.TheVariants.{SetElem, If, For};
ghost use Rattle.pw_tree.specs.Steps.Nested.{put_before, typed_parts_of};

use crate::nested::{
    Nested, copy_nested, only_copy, only_part, part_of_for, part_of_if, pop_boxed, pop_boxed_option,
};
use crate::texpr::TExpr;
use crate::ty::Ref;
use pw_base::NoMemory;
use sqlite_items::{Boxed, Items};
use std::alloc::Global;

/// The forms of typed statements.
#[derive(Drop)]
pub enum TStmt {
    Eval(TExpr),
    /// Sets a local; without a value it is a declaration, which sets 0 or null.
    SetLocal(u32, Option<TExpr>),
    SetVar(Ref, TExpr),
    /// An array, its size, the line of `[`, the index and the value: `a[i] = e`.
    SetElem(Ref, u32, u32, TExpr, TExpr),
    Block(Items<TStmt>),
    If(TExpr, Boxed<TStmt>, Option<Boxed<TStmt>>),
    While(TExpr, Boxed<TStmt>),
    Do(Boxed<TStmt>, TExpr),
    /// The first part, the condition, the last part and the body.
    For(Option<Boxed<TStmt>>, Option<TExpr>, Option<Boxed<TStmt>>, Boxed<TStmt>),
    Return(Option<TExpr>),
    Break,
    Continue,
}

impl TStmt {
    /// An equal statement.
    pub fn copy(&self, alloc: Global) -> Result<TStmt, NoMemory>
        ensures { IfOk result (λ copy. copy ≡ self.now) }
    {
        copy_nested(alloc, self)
    }

    /// Equal statements.
    pub(crate) fn copy_all(alloc: Global, stmts: &[TStmt]) -> Result<Items<TStmt>, NoMemory>
        ensures { IfOk result (λ copy. copy ≡ stmts.now) }
    {
        let mut copies = Items::new(alloc);
        for stmt in stmts {
            copies.push(stmt.copy(alloc)?)?;
        }
        Ok(copies)
    }

    /// `name[index] = value`, copied.
    fn copy_set_elem(
        alloc: Global,
        name: &Ref,
        size: u32,
        line: u32,
        index: &TExpr,
        value: &TExpr,
    ) -> Result<TStmt, NoMemory>
        ensures { IfOk result (λ copy. copy ≡ SetElem name.now size line index.now value.now) }
    {
        Ok(TStmt::SetElem(
            name.copy(alloc)?,
            size,
            line,
            index.copy(alloc)?,
            value.copy(alloc)?,
        ))
    }

    /// An equal `if`, from copies of its statements.
    fn copy_if(
        alloc: Global,
        c: &TExpr,
        yes: &Boxed<TStmt>,
        no: &Option<Boxed<TStmt>>,
        copies: Items<TStmt>,
    ) -> Result<TStmt, NoMemory>
        requires { copies ≡ yes.now ∷ put_before no.now [] }
        ensures { IfOk result (λ copy. copy ≡ If c.now yes.now no.now) }
    {
        let mut copies = copies;
        let no = pop_boxed_option(alloc, &mut copies, no)?;
        let yes = pop_boxed(alloc, &mut copies)?;
        Ok(TStmt::If(c.copy(alloc)?, yes, no))
    }

    /// An equal `for`, from copies of its statements.
    fn copy_for(
        alloc: Global,
        first: &Option<Boxed<TStmt>>,
        c: &Option<TExpr>,
        last: &Option<Boxed<TStmt>>,
        body: &Boxed<TStmt>,
        copies: Items<TStmt>,
    ) -> Result<TStmt, NoMemory>
        requires { copies ≡ put_before first.now (put_before last.now (body.now ∷ [])) }
        ensures { IfOk result (λ copy. copy ≡ For first.now c.now last.now body.now) }
    {
        let mut copies = copies;
        let body = pop_boxed(alloc, &mut copies)?;
        let last = pop_boxed_option(alloc, &mut copies, last)?;
        let first = pop_boxed_option(alloc, &mut copies, first)?;
        Ok(TStmt::For(first, TExpr::copy_option(alloc, c)?, last, body))
    }
}

impl Nested for TStmt {
    ghost parts = { typed_parts_of };

    #[tactic(auto, using(crate::proofs::Parts::typed_parts_of_eval, crate::proofs::Parts::typed_parts_of_set_local, crate::proofs::Parts::typed_parts_of_set_var, crate::proofs::Parts::typed_parts_of_set_elem, crate::proofs::Parts::typed_parts_of_block, crate::proofs::Parts::typed_parts_of_if, crate::proofs::Parts::typed_parts_of_while, crate::proofs::Parts::typed_parts_of_do, crate::proofs::Parts::typed_parts_of_for, crate::proofs::Parts::typed_parts_of_return, crate::proofs::Parts::typed_parts_of_break, crate::proofs::Parts::typed_parts_of_continue))]
    fn part(&self, number: usize) -> Option<&TStmt>
        ensures { option_copied result ≡ slice_get (typed_parts_of self.now) number }
    {
        match self {
            TStmt::Block(body) => body.get(number),
            TStmt::If(_, yes, no) => part_of_if(yes, no, number),
            TStmt::While(_, body) => only_part(body, number),
            TStmt::Do(body, _) => only_part(body, number),
            TStmt::For(first, _, last, body) => part_of_for(first, last, body, number),
            TStmt::Eval(_)
            | TStmt::SetLocal(_, _)
            | TStmt::SetVar(_, _)
            | TStmt::SetElem(_, _, _, _, _)
            | TStmt::Return(_)
            | TStmt::Break
            | TStmt::Continue => None,
        }
    }

    #[tactic(auto, using(crate::proofs::Parts::typed_parts_of_eval, crate::proofs::Parts::typed_parts_of_set_local, crate::proofs::Parts::typed_parts_of_set_var, crate::proofs::Parts::typed_parts_of_set_elem, crate::proofs::Parts::typed_parts_of_block, crate::proofs::Parts::typed_parts_of_if, crate::proofs::Parts::typed_parts_of_while, crate::proofs::Parts::typed_parts_of_do, crate::proofs::Parts::typed_parts_of_for, crate::proofs::Parts::typed_parts_of_return, crate::proofs::Parts::typed_parts_of_break, crate::proofs::Parts::typed_parts_of_continue))]
    fn around(&self, alloc: Global, copies: Items<TStmt>) -> Result<TStmt, NoMemory>
        requires { copies ≡ typed_parts_of self.now }
        ensures { IfOk result (λ copy. copy ≡ self.now) }
    {
        match self {
            TStmt::Block(_) => Ok(TStmt::Block(copies)),
            TStmt::If(c, yes, no) => TStmt::copy_if(alloc, c, yes, no, copies),
            TStmt::While(c, body) => {
                let body = only_copy(alloc, body, copies)?;
                Ok(TStmt::While(c.copy(alloc)?, body))
            }
            TStmt::Do(body, c) => {
                let body = only_copy(alloc, body, copies)?;
                Ok(TStmt::Do(body, c.copy(alloc)?))
            }
            TStmt::For(first, c, last, body) => {
                TStmt::copy_for(alloc, first, c, last, body, copies)
            }
            TStmt::Eval(e) => Ok(TStmt::Eval(e.copy(alloc)?)),
            TStmt::SetLocal(number, value) => Ok(TStmt::SetLocal(
                *number,
                TExpr::copy_option(alloc, value)?,
            )),
            TStmt::SetVar(name, value) => Ok(TStmt::SetVar(name.copy(alloc)?, value.copy(alloc)?)),
            TStmt::SetElem(name, size, line, index, value) => {
                TStmt::copy_set_elem(alloc, name, *size, *line, index, value)
            }
            TStmt::Return(value) => Ok(TStmt::Return(TExpr::copy_option(alloc, value)?)),
            TStmt::Break => Ok(TStmt::Break),
            TStmt::Continue => Ok(TStmt::Continue),
        }
    }
}
