//! Typed units: functions, variables, and the external names that they use.
ghost use Rattle.std.specs.Prelude.{◌≡◌, IfOk};

use crate::copies::{Duplicate, copy_all};
use crate::tstmt::TStmt;
use crate::ty::{Ref, Sig, Ty};
use pw_base::{Name, NoMemory, TypeText};
use sqlite_items::Items;
use std::alloc::Global;

/// A function's definition.
#[derive(Drop)]
pub struct TFun {
    pub name: Name,
    /// Whether its linkage is external.
    pub global: bool,
    pub sig: Sig,
    /// The line of its name.
    pub line: u32,
    /// How many parameters and locals it has.
    pub locals: u32,
    /// How many values it holds at a time while it evaluates.
    pub held: u32,
    pub body: Items<TStmt>,
}

/// An element of an initialiser.
#[derive(Drop)]
pub enum Init {
    Num(u64),
    Fun(Ref),
}

/// A variable's definition; `count` is an array's size.
#[derive(Drop)]
pub struct TVar {
    pub name: Name,
    /// Whether its linkage is external.
    pub global: bool,
    pub ty: Ty,
    pub count: Option<u32>,
    pub init: Option<Items<Init>>,
}

/// A name with external linkage, and its type's text.
#[derive(Drop)]
pub struct Ext {
    pub name: Name,
    pub text: TypeText,
}

/// A typed unit. Its functions and variables stand in order of definition; `names` has the names with external
/// linkage that it defines or uses in a body or an initialiser, in order of their first declaration.
#[derive(Drop)]
pub struct TUnit {
    pub funs: Items<TFun>,
    pub vars: Items<TVar>,
    pub names: Items<Ext>,
}

impl TFun {
    /// An equal definition.
    pub fn copy(&self, alloc: Global) -> Result<TFun, NoMemory>
        ensures { IfOk result (λ copy. copy ≡ self.now) }
    {
        Ok(TFun {
            name: self.name.copy(alloc)?,
            global: self.global,
            sig: self.sig.copy(alloc)?,
            line: self.line,
            locals: self.locals,
            held: self.held,
            body: TStmt::copy_all(alloc, self.body.as_slice())?,
        })
    }
}

impl Duplicate for TFun {
    fn duplicate(&self, alloc: Global) -> Result<TFun, NoMemory> {
        self.copy(alloc)
    }
}

impl Init {
    /// An equal element.
    pub fn copy(&self, alloc: Global) -> Result<Init, NoMemory>
        ensures { IfOk result (λ copy. copy ≡ self.now) }
    {
        Ok(match self {
            Init::Num(value) => Init::Num(*value),
            Init::Fun(name) => Init::Fun(name.copy(alloc)?),
        })
    }
}

impl Duplicate for Init {
    fn duplicate(&self, alloc: Global) -> Result<Init, NoMemory> {
        self.copy(alloc)
    }
}

impl TVar {
    /// An equal definition.
    pub fn copy(&self, alloc: Global) -> Result<TVar, NoMemory>
        ensures { IfOk result (λ copy. copy ≡ self.now) }
    {
        let init = match &self.init {
            Some(init) => Some(copy_all(alloc, init.as_slice())?),
            None => None,
        };
        Ok(TVar {
            name: self.name.copy(alloc)?,
            global: self.global,
            ty: self.ty,
            count: self.count,
            init,
        })
    }
}

impl Duplicate for TVar {
    fn duplicate(&self, alloc: Global) -> Result<TVar, NoMemory> {
        self.copy(alloc)
    }
}

impl Ext {
    /// An equal name.
    pub fn copy(&self, alloc: Global) -> Result<Ext, NoMemory>
        ensures { IfOk result (λ copy. copy ≡ self.now) }
    {
        Ok(Ext {
            name: self.name.copy(alloc)?,
            text: self.text.copy(alloc)?,
        })
    }
}

impl Duplicate for Ext {
    fn duplicate(&self, alloc: Global) -> Result<Ext, NoMemory> {
        self.copy(alloc)
    }
}

impl TUnit {
    /// An equal unit.
    pub fn copy(&self, alloc: Global) -> Result<TUnit, NoMemory>
        ensures { IfOk result (λ copy. copy ≡ self.now) }
    {
        Ok(TUnit {
            funs: copy_all(alloc, self.funs.as_slice())?,
            vars: copy_all(alloc, self.vars.as_slice())?,
            names: copy_all(alloc, self.names.as_slice())?,
        })
    }
}
