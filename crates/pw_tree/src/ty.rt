//! Types, signatures, and how a typed tree names a function or a variable.
ghost use Rattle.std.specs.Prelude.{◌≡◌, IfOk};

use pw_base::{Name, NoMemory};
use sqlite_items::Items;
use std::alloc::Global;

/// A type of the language.
#[derive(Clone, Copy, PartialEq, Eq, Debug)]
pub enum Ty {
    Void,
    Long,
    Ulong,
    /// A pointer to a function that takes this many longs and gives a long; from 0 to 6.
    Fn(u8),
}

/// The type of a function.
#[derive(Drop)]
pub struct Sig {
    pub result: Ty,
    pub params: Items<Ty>,
}

/// How a unit names a function or a variable: by its linkage (C17, 6.2.2).
#[derive(Drop)]
pub enum Ref {
    /// External linkage: by its name.
    Global(Name),
    /// Internal linkage: the unit's function of this number, from 0.
    LocalFun(u32),
    /// Internal linkage: the unit's variable of this number, from 0.
    LocalVar(u32),
}

impl Sig {
    /// An equal signature.
    pub fn copy(&self, alloc: Global) -> Result<Sig, NoMemory>
        ensures { IfOk result (λ copy. copy ≡ self.now) }
    {
        let params = Items::from_slice(alloc, self.params.as_slice())?;
        Ok(Sig {
            result: self.result,
            params,
        })
    }
}

impl Ref {
    /// An equal name.
    pub fn copy(&self, alloc: Global) -> Result<Ref, NoMemory>
        ensures { IfOk result (λ copy. copy ≡ self.now) }
    {
        Ok(match self {
            Ref::Global(name) => Ref::Global(name.copy(alloc)?),
            Ref::LocalFun(number) => Ref::LocalFun(*number),
            Ref::LocalVar(number) => Ref::LocalVar(*number),
        })
    }
}
