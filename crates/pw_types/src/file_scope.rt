//! The names at file scope.
ghost use Rattle.std.specs.Prelude.{◌≡◌, [], OnOk};
ghost use Rattle.pw_types.specs.Scopes.{with_file};
ghost use Rattle.pw_types.specs.Steps.Lookups.{Finds};

use crate::names::File;
use indexmap::IndexMap;
use pw_base::NoMemory;
use std::alloc::Global;
use std::marker::Model;

/// The names at file scope, in order of first declaration. Contracts see them as the list of these.
///
/// A name is looked up by the hash of its bytes, which are the keys.
#[derive(Drop)]
pub struct FileScope {
    by_name: IndexMap<Vec<u8>, File>,
}

impl Model for FileScope {
    ghost use Rattle.std.specs.Prelude.{List};
    ghost use Rattle.pw_types.specs.declared.names.File.{File as Declared};
    ghost use Rattle.indexmap.specs.IndexMap.{values};
    ghost use Rattle.pw_types.specs.Steps.Lookups.{AreKeyed};

    ghost Value = { List Declared };

    ghost view = { λ files. values files.by_name };

    ghost invariant = { λ files. AreKeyed (λ key. key.items) files.by_name.entries };
}

impl FileScope {
    /// No names.
    pub fn new(alloc: Global) -> FileScope
        ensures { result ≡ [] }
    {
        FileScope {
            by_name: IndexMap::new(alloc),
        }
    }

    /// The declaration of a name, and its number in the order of first declaration.
    pub fn find(&self, name: &[u8]) -> Option<(usize, &File)>
        ensures { Finds name.now self.now result }
    {
        match self.by_name.get_full(name) {
            Some((number, _, file)) => Some((number, file)),
            None => None,
        }
    }

    /// A declaration joins them: the first of a name is kept, and is defined where a later one is.
    pub fn declare(&mut self, file: File) -> Result<(), NoMemory>
        ensures { OnOk result (self.new ≡ with_file file self.old) }
    {
        match self.by_name.get_mut(file.name.bytes()) {
            Some(known) => {
                known.defined |= file.defined;
                Ok(())
            }
            None => {
                let key = Vec::from_slice(*self.by_name.allocator(), file.name.bytes())?;
                match self.by_name.insert(key, file) {
                    Ok(_) => Ok(()),
                    Err(_) => Err(NoMemory),
                }
            }
        }
    }

    /// All of them, in order of first declaration.
    pub fn as_slice(&self) -> &[File]
        ensures { result.now ≡ self.now }
    {
        self.by_name.values().as_slice()
    }
}
