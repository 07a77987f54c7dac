//! Statements as they are written.
ghost use Rattle.std.specs.Prelude.{◌≡◌, IfOk, slice_get, option_copied, [], ◌∷◌};
ghost use Rattle.pw_tree.specs.declared.stmt.StmtKind.TheVariants.{Set, If, For};
ghost use Rattle.pw_tree.specs.Steps.Nested.{put_before, parts_of, parts_of_kind};

use crate::expr::Expr;
use crate::nested::{
    Nested, copy_nested, only_copy, only_part, part_of_for, part_of_if, pop_boxed, pop_boxed_option,
};
use crate::ty::Ty;
use pw_base::{Name, NoMemory};
use sqlite_items::{Boxed, Items};
use std::alloc::Global;

/// A statement and where it stands: its first and last token, counted from 0 in the unit, and its first token's line.
#[cycle(stmt)]
#[derive(Drop)]
pub struct Stmt {
    pub first: u32,
    pub last: u32,
    pub line: u32,
    pub kind: StmtKind,
}

/// The forms of statements (C17, 6.8), and a local's declaration.
#[cycle(stmt)]
#[derive(Drop)]
pub enum StmtKind {
    /// `;`
    Empty,
    Block(Items<Stmt>),
    /// A local, with what it is set to.
    Local(Ty, Name, Option<Expr>),
    /// `name = value`, or `name[index] = value`.
    Set(Name, Option<Expr>, Expr),
    Eval(Expr),
    If(Expr, Boxed<Stmt>, Option<Boxed<Stmt>>),
    While(Expr, Boxed<Stmt>),
    Do(Boxed<Stmt>, Expr),
    /// The first part, the condition, the last part and the body. A local stands with its `;`, the other parts without.
    For(Option<Boxed<Stmt>>, Option<Expr>, Option<Boxed<Stmt>>, Boxed<Stmt>),
    Return(Option<Expr>),
    Break,
    Continue,
}

impl Stmt {
    /// An equal statement.
    pub fn copy(&self, alloc: Global) -> Result<Stmt, NoMemory>
        ensures { IfOk result (λ copy. copy ≡ self.now) }
    {
        copy_nested(alloc, self)
    }

    /// Equal statements.
    pub(crate) fn copy_all(alloc: Global, stmts: &[Stmt]) -> Result<Items<Stmt>, NoMemory>
        ensures { IfOk result (λ copy. copy ≡ stmts.now) }
    {
        let mut copies = Items::new(alloc);
        for stmt in stmts {
            copies.push(stmt.copy(alloc)?)?;
        }
        Ok(copies)
    }
}

impl Nested for Stmt {
    ghost parts = { parts_of };

    fn part(&self, number: usize) -> Option<&Stmt> {
        self.kind.part(number)
    }

    fn around(&self, alloc: Global, copies: Items<Stmt>) -> Result<Stmt, NoMemory>
        requires { copies ≡ parts_of self.now }
        ensures { IfOk result (λ copy. copy ≡ self.now) }
    {
        Ok(Stmt {
            first: self.first,
            last: self.last,
            line: self.line,
            kind: self.kind.around(alloc, copies)?,
        })
    }
}

/// An equal `for`, from copies of its statements.
fn copy_for(
    alloc: Global,
    first: &Option<Boxed<Stmt>>,
    c: &Option<Expr>,
    last: &Option<Boxed<Stmt>>,
    body: &Boxed<Stmt>,
    copies: Items<Stmt>,
) -> Result<StmtKind, NoMemory>
    requires { copies ≡ put_before first.now (put_before last.now (body.now ∷ [])) }
    ensures { IfOk result (λ copy. copy ≡ For first.now c.now last.now body.now) }
{
    let mut copies = copies;
    let body = pop_boxed(alloc, &mut copies)?;
    let last = pop_boxed_option(alloc, &mut copies, last)?;
    let first = pop_boxed_option(alloc, &mut copies, first)?;
    Ok(StmtKind::For(first, Expr::copy_option(alloc, c)?, last, body))
}

/// An equal `if`, from copies of its statements.
fn copy_if(
    alloc: Global,
    c: &Expr,
    yes: &Boxed<Stmt>,
    no: &Option<Boxed<Stmt>>,
    copies: Items<Stmt>,
) -> Result<StmtKind, NoMemory>
    requires { copies ≡ yes.now ∷ put_before no.now [] }
    ensures { IfOk result (λ copy. copy ≡ If c.now yes.now no.now) }
{
    let mut copies = copies;
    let no = pop_boxed_option(alloc, &mut copies, no)?;
    let yes = pop_boxed(alloc, &mut copies)?;
    Ok(StmtKind::If(c.copy(alloc)?, yes, no))
}

impl StmtKind {
    /// An equal form.
    pub fn copy(&self, alloc: Global) -> Result<StmtKind, NoMemory>
        ensures { IfOk result (λ copy. copy ≡ self.now) }
    {
        self.around(alloc, self.copied_parts(alloc)?)
    }

    /// Copies of the statements that stand right in it, in order.
    #[tactic(auto, using(crate::proofs::Nesting::one_done))]
    fn copied_parts(&self, alloc: Global) -> Result<Items<Stmt>, NoMemory>
        ensures { IfOk result (λ copies. copies ≡ parts_of_kind self.now) }
    {
        let mut copies = Items::new(alloc);
        while let Some(part) = self.part(copies.len()) {
            copies.push(part.copy(alloc)?)?;
        }
        Ok(copies)
    }

    /// The statement of this number that stands right in it, from 0.
    #[tactic(auto, using(crate::proofs::Parts::parts_of_empty, crate::proofs::Parts::parts_of_block, crate::proofs::Parts::parts_of_local, crate::proofs::Parts::parts_of_set, crate::proofs::Parts::parts_of_eval, crate::proofs::Parts::parts_of_if, crate::proofs::Parts::parts_of_while, crate::proofs::Parts::parts_of_do, crate::proofs::Parts::parts_of_for, crate::proofs::Parts::parts_of_return, crate::proofs::Parts::parts_of_break, crate::proofs::Parts::parts_of_continue))]
    fn part(&self, number: usize) -> Option<&Stmt>
        ensures { option_copied result ≡ slice_get (parts_of_kind self.now) number }
    {
        match self {
            StmtKind::Block(body) => body.get(number),
            StmtKind::If(_, yes, no) => part_of_if(yes, no, number),
            StmtKind::While(_, body) => only_part(body, number),
            StmtKind::Do(body, _) => only_part(body, number),
            StmtKind::For(first, _, last, body) => part_of_for(first, last, body, number),
            StmtKind::Empty
            | StmtKind::Local(_, _, _)
            | StmtKind::Set(_, _, _)
            | StmtKind::Eval(_)
            | StmtKind::Return(_)
            | StmtKind::Break
            | StmtKind::Continue => None,
        }
    }

    /// An equal form, from copies of the statements that stand right in it.
    #[tactic(auto, using(crate::proofs::Parts::parts_of_empty, crate::proofs::Parts::parts_of_block, crate::proofs::Parts::parts_of_local, crate::proofs::Parts::parts_of_set, crate::proofs::Parts::parts_of_eval, crate::proofs::Parts::parts_of_if, crate::proofs::Parts::parts_of_while, crate::proofs::Parts::parts_of_do, crate::proofs::Parts::parts_of_for, crate::proofs::Parts::parts_of_return, crate::proofs::Parts::parts_of_break, crate::proofs::Parts::parts_of_continue))]
    fn around(&self, alloc: Global, copies: Items<Stmt>) -> Result<StmtKind, NoMemory>
        requires { copies ≡ parts_of_kind self.now }
        ensures { IfOk result (λ copy. copy ≡ self.now) }
    {
        match self {
            StmtKind::Block(_) => Ok(StmtKind::Block(copies)),
            StmtKind::If(c, yes, no) => copy_if(alloc, c, yes, no, copies),
            StmtKind::While(c, body) => {
                let body = only_copy(alloc, body, copies)?;
                Ok(StmtKind::While(c.copy(alloc)?, body))
            }
            StmtKind::Do(body, c) => {
                let body = only_copy(alloc, body, copies)?;
                Ok(StmtKind::Do(body, c.copy(alloc)?))
            }
            StmtKind::For(first, c, last, body) => copy_for(alloc, first, c, last, body, copies),
            StmtKind::Empty => Ok(StmtKind::Empty),
            StmtKind::Local(ty, name, value) => {
                Ok(StmtKind::Local(*ty, name.copy(alloc)?, Expr::copy_option(alloc, value)?))
            }
            StmtKind::Set(name, index, value) => StmtKind::copy_set(alloc, name, index, value),
            StmtKind::Eval(e) => Ok(StmtKind::Eval(e.copy(alloc)?)),
            StmtKind::Return(value) => Ok(StmtKind::Return(Expr::copy_option(alloc, value)?)),
            StmtKind::Break => Ok(StmtKind::Break),
            StmtKind::Continue => Ok(StmtKind::Continue),
        }
    }

    /// `name = value` or `name[index] = value`, copied.
    fn copy_set(
        alloc: Global,
        name: &Name,
        index: &Option<Expr>,
        value: &Expr,
    ) -> Result<StmtKind, NoMemory>
        ensures { IfOk result (λ copy. copy ≡ Set name.now index.now value.now) }
    {
        Ok(StmtKind::Set(
            name.copy(alloc)?,
            Expr::copy_option(alloc, index)?,
            value.copy(alloc)?,
        ))
    }
}
