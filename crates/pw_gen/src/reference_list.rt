//! References to functions, each once.
ghost use Rattle.std.specs.Prelude.{◌≡◌, [], IfOk, OnOk};
ghost use Rattle.std.specs.Cmp.{on_equiv, on_per, partial_equiv_from_equiv};
ghost use Rattle.pw_code.specs.Objects.{same_ref};
ghost use Rattle.pw_gen.specs.Steps.Naming.{joined};
ghost use Rattle.pw_gen.specs.Steps.ReferenceKeys.{hashed, same_refs, hashed_alike};

use indexmap::IndexSet;
use pw_base::NoMemory;
use pw_tree::Ref;
use sqlite_items::Items;
use std::alloc::Global;
use std::hash::{Hash, Hasher};
use std::marker::Model;

/// Whether two references are the same.
fn is_same(a: &Ref, b: &Ref) -> bool
    ensures { result ≡ same_ref a.now b.now }
{
    match (a, b) {
        (Ref::Global(a), Ref::Global(b)) => a.bytes() == b.bytes(),
        (Ref::LocalFun(i), Ref::LocalFun(j)) => i == j,
        (Ref::LocalVar(i), Ref::LocalVar(j)) => i == j,
        _ => false,
    }
}

/// A reference as a key of a set.
#[derive(Drop)]
struct Key {
    to: Ref,
}

impl PartialEq for Key {
    ghost eq = { λ a b. same_ref a.to b.to };

    ghost laws = { on_per (λ key. key.to) (partial_equiv_from_equiv same_refs) };

    fn eq(&self, other: &Key) -> bool {
        is_same(&self.to, &other.to)
    }
}

impl Eq for Key {
    ghost laws = { on_equiv (λ key. key.to) same_refs };
}

impl Hash for Key {
    ghost hash_input = { λ key. hashed key.to };

    ghost respects_eq = { λ a b. hashed_alike a.to b.to };

    fn hash<H: Hasher>(&self, state: &mut H) {
        match &self.to {
            Ref::Global(name) => name.bytes().hash(state),
            Ref::LocalFun(number) => number.hash(state),
            Ref::LocalVar(number) => number.hash(state),
        }
    }
}

/// References in order of first mention, each once. Contracts see them as the list of these.
///
/// A reference is looked up by its hash.
#[derive(Drop)]
pub(crate) struct References {
    set: IndexSet<Key>,
}

impl Model for References {
    ghost use Rattle.std.specs.Prelude.{List, map};
    ghost use Rattle.pw_tree.specs.declared.ty.Ref.{Ref};

    ghost Value = { List Ref };

    ghost view = { λ references. map (λ key. key.to) references.set.keys };
}

impl References {
    /// No references.
    pub(crate) fn new(alloc: Global) -> References
        ensures { result ≡ [] }
    {
        References {
            set: IndexSet::new(alloc),
        }
    }

    /// A reference joins them, unless it is one of them.
    pub(crate) fn join(&mut self, alloc: Global, r: &Ref) -> Result<(), NoMemory>
        ensures { OnOk result (self.new ≡ joined self.old r.now) }
    {
        let key = Key { to: r.copy(alloc)? };
        match self.set.insert(key) {
            Ok(_) => Ok(()),
            Err(_) => Err(NoMemory),
        }
    }

    /// The list of them.
    pub(crate) fn list(&self, alloc: Global) -> Result<Items<Ref>, NoMemory>
        ensures { IfOk result (λ list. list ≡ self.now) }
    {
        let keys = self.set.as_slice();
        let mut list = Items::new(alloc);
        for key in keys {
            list.push(key.to.copy(alloc)?)?;
        }
        Ok(list)
    }
}
