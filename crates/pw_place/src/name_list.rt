//! Lists of names, each once, in order of first appearance.
ghost use Rattle.std.specs.Prelude.{◌≡◌, ◌<◌, ◌^◌, [], length, bytes_eq, slice_get, MatchOption, OnOk};
ghost use Rattle.std.specs.List.{list_any, position_or_len};
ghost use Rattle.pw_place.specs.Steps.NameLists.{joined};

use indexmap::IndexSet;
use pw_base::NoMemory;
use std::alloc::Global;
use std::marker::Model;

/// Names in order of first appearance. Contracts see them as the list of these.
///
/// A name is looked up by the hash of its bytes.
#[derive(Drop)]
pub(crate) struct NameList {
    set: IndexSet<Vec<u8>>,
}

impl Model for NameList {
    ghost use Rattle.std.specs.Prelude.{List, ℕ, map};

    ghost Value = { List (List ℕ) };

    ghost view = { λ names. map (λ key. key.items) names.set.keys };
}

impl NameList {
    /// No names.
    pub(crate) fn new(alloc: Global) -> NameList
        ensures { result ≡ [] }
    {
        NameList {
            set: IndexSet::new(alloc),
        }
    }

    /// A name joins them, unless it is one of them.
    pub(crate) fn add(&mut self, alloc: Global, name: &[u8]) -> Result<(), NoMemory>
        ensures { OnOk result (self.new ≡ joined self.old name.now) }
    {
        if self.set.contains(name) {
            return Ok(());
        }
        let key = Vec::from_slice(alloc, name)?;
        match self.set.insert(key) {
            Ok(_) => Ok(()),
            Err(_) => Err(NoMemory),
        }
    }

    /// Whether this is one of the names.
    pub(crate) fn contains(&self, name: &[u8]) -> bool
        ensures { result ≡ list_any (bytes_eq name.now) self.now }
    {
        self.set.contains(name)
    }

    /// How many of the names stand before this one.
    pub(crate) fn number(&self, name: &[u8]) -> u32
        requires { length self.now < 2 ^ 32 }
        ensures { result ≡ position_or_len (bytes_eq name.now) self.now }
    {
        match self.set.get_index_of(name) {
            Some(number) => number as u32,
            None => self.set.len() as u32,
        }
    }

    /// The name of this number, if there is one.
    pub(crate) fn get(&self, i: usize) -> Option<&[u8]>
        ensures { MatchOption result (slice_get self.now i ≡ None) (λ name. slice_get self.now i ≡ Some name.now) }
    {
        match self.set.get_index(i) {
            Some(key) => Some(key.as_slice()),
            None => None,
        }
    }

    /// How many they are.
    pub(crate) fn len(&self) -> usize
        ensures { result ≡ length self.now }
    {
        self.set.len()
    }
}
