//! The names that a unit defines, with their numbers.
ghost use Rattle.std.specs.Prelude.{◌≡◌, [], OnOk};
ghost use Rattle.pw_types.specs.Scopes.{joined, number_of};

use indexmap::IndexSet;
use pw_base::{Name, NoMemory};
use std::alloc::Global;
use std::marker::Model;

/// Names in order of first mention, fewer than 2^32. Contracts see them as the list of these.
///
/// A name is looked up by the hash of its bytes.
#[derive(Drop)]
pub struct Names {
    set: IndexSet<Vec<u8>>,
}

impl Model for Names {
    ghost use Rattle.std.specs.Prelude.{List, ℕ, map, length, ◌<◌, ◌^◌};

    ghost Value = { List (List ℕ) };

    ghost view = { λ names. map (λ key. key.items) names.set.keys };

    ghost invariant = { λ names. length names.set.keys < 2 ^ 32 };
}

impl Names {
    /// No names.
    pub fn new(alloc: Global) -> Names
        ensures { result ≡ [] }
    {
        Names {
            set: IndexSet::new(alloc),
        }
    }

    /// A name joins them, unless it is one of them. More than 2^32 - 1 find no memory.
    pub fn join(&mut self, alloc: Global, name: &Name) -> Result<(), NoMemory>
        ensures { OnOk result (self.new ≡ joined self.old name.now) }
    {
        if self.set.contains(name.bytes()) {
            return Ok(());
        }
        if self.set.len() >= u32::MAX as usize {
            return Err(NoMemory);
        }
        let key = Vec::from_slice(alloc, name.bytes())?;
        match self.set.insert(key) {
            Ok(_) => Ok(()),
            Err(_) => Err(NoMemory),
        }
    }

    /// How many names stand before this one.
    pub fn number(&self, name: &[u8]) -> u32
        ensures { result ≡ number_of name.now self.now }
    {
        match self.set.get_index_of(name) {
            Some(number) => number as u32,
            None => self.set.len() as u32,
        }
    }
}
