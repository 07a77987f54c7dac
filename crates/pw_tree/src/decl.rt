//! Declarations at file level, and the unit that they make up.
ghost use Rattle.std.specs.Prelude.{◌≡◌, IfOk};

use crate::copies::{Duplicate, copy_all};
use crate::stmt::Stmt;
use crate::ty::Ty;
use pw_base::{Name, NoMemory};
use sqlite_items::Items;
use std::alloc::Global;

/// A parameter, with its first and last token.
#[derive(Drop)]
pub struct Param {
    pub ty: Ty,
    pub name: Option<Name>,
    pub first: u32,
    pub last: u32,
}

/// An element of an initialiser, with its first and last token and the first one's line.
#[derive(Drop)]
pub struct InitItem {
    pub first: u32,
    pub last: u32,
    pub line: u32,
    pub kind: InitKind,
}

/// What an element of an initialiser is: a number, a minus sign taken in, or the name of a function.
#[derive(Drop)]
pub enum InitKind {
    Num(u64),
    Word(Name),
}

/// The storage class that a declaration is written with (C17, 6.7.1).
#[derive(Clone, Copy, PartialEq, Eq, Debug)]
pub enum Linkage {
    Plain,
    Extern,
    Static,
}

/// A declaration at file level. `first`, `name_at`, `declarator` and `last` are its first token, its name's, its
/// declarator's last and its last token, counted from 0 in the unit; `line` is the name's line.
#[derive(Drop)]
pub struct Decl {
    pub first: u32,
    pub name_at: u32,
    pub declarator: u32,
    pub last: u32,
    pub line: u32,
    pub linkage: Linkage,
    pub name: Name,
    pub kind: DeclKind,
}

/// The forms of declarations at file level (C17, 6.9).
#[derive(Drop)]
pub enum DeclKind {
    /// A function's prototype: its result and its parameters.
    Proto(Ty, Items<Param>),
    /// A function's definition: its result, its parameters and its body.
    Fun(Ty, Items<Param>, Items<Stmt>),
    /// A variable, or an array of this many elements, and its initialiser.
    Var(Ty, Option<u64>, Option<Items<InitItem>>),
}

/// A translation unit: its declarations in order, and the line of each of its tokens.
#[derive(Drop)]
pub struct Unit {
    pub decls: Items<Decl>,
    pub lines: Items<u32>,
}

impl Param {
    /// An equal parameter.
    pub fn copy(&self, alloc: Global) -> Result<Param, NoMemory>
        ensures { IfOk result (λ copy. copy ≡ self.now) }
    {
        let name = match &self.name {
            Some(name) => Some(name.copy(alloc)?),
            None => None,
        };
        Ok(Param {
            ty: self.ty,
            name,
            first: self.first,
            last: self.last,
        })
    }
}

impl Duplicate for Param {
    fn duplicate(&self, alloc: Global) -> Result<Param, NoMemory> {
        self.copy(alloc)
    }
}

impl InitItem {
    /// An equal element.
    pub fn copy(&self, alloc: Global) -> Result<InitItem, NoMemory>
        ensures { IfOk result (λ copy. copy ≡ self.now) }
    {
        Ok(InitItem {
            first: self.first,
            last: self.last,
            line: self.line,
            kind: self.kind.copy(alloc)?,
        })
    }
}

impl Duplicate for InitItem {
    fn duplicate(&self, alloc: Global) -> Result<InitItem, NoMemory> {
        self.copy(alloc)
    }
}

impl InitKind {
    /// An equal form.
    pub fn copy(&self, alloc: Global) -> Result<InitKind, NoMemory>
        ensures { IfOk result (λ copy. copy ≡ self.now) }
    {
        Ok(match self {
            InitKind::Num(value) => InitKind::Num(*value),
            InitKind::Word(name) => InitKind::Word(name.copy(alloc)?),
        })
    }
}

impl Decl {
    /// An equal declaration.
    pub fn copy(&self, alloc: Global) -> Result<Decl, NoMemory>
        ensures { IfOk result (λ copy. copy ≡ self.now) }
    {
        Ok(Decl {
            first: self.first,
            name_at: self.name_at,
            declarator: self.declarator,
            last: self.last,
            line: self.line,
            linkage: self.linkage,
            name: self.name.copy(alloc)?,
            kind: self.kind.copy(alloc)?,
        })
    }
}

impl Duplicate for Decl {
    fn duplicate(&self, alloc: Global) -> Result<Decl, NoMemory> {
        self.copy(alloc)
    }
}

impl DeclKind {
    /// An equal form.
    pub fn copy(&self, alloc: Global) -> Result<DeclKind, NoMemory>
        ensures { IfOk result (λ copy. copy ≡ self.now) }
    {
        match self {
            DeclKind::Proto(result, params) => {
                Ok(DeclKind::Proto(*result, copy_all(alloc, params.as_slice())?))
            }
            DeclKind::Fun(result, params, body) => {
                let params = copy_all(alloc, params.as_slice())?;
                Ok(DeclKind::Fun(*result, params, Stmt::copy_all(alloc, body.as_slice())?))
            }
            DeclKind::Var(ty, count, Some(init)) => {
                Ok(DeclKind::Var(*ty, *count, Some(copy_all(alloc, init.as_slice())?)))
            }
            DeclKind::Var(ty, count, None) => Ok(DeclKind::Var(*ty, *count, None)),
        }
    }
}

impl Unit {
    /// An equal unit.
    pub fn copy(&self, alloc: Global) -> Result<Unit, NoMemory>
        ensures { IfOk result (λ copy. copy ≡ self.now) }
    {
        Ok(Unit {
            decls: copy_all(alloc, self.decls.as_slice())?,
            lines: Items::from_slice(alloc, self.lines.as_slice())?,
        })
    }
}
