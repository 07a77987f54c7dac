//! What is visible at a place of a unit.
ghost use Rattle.std.specs.Prelude.{◌≡◌, IfOk, is_some, option_copied, find, reverse};
ghost use Rattle.std.specs.Str.{bytes_eq};
ghost use Rattle.pw_types.specs.Scopes.{local_named, function_reference, variable_reference};
ghost use Rattle.pw_types.specs.Steps.Lookups.{FindsMeaning};

use crate::declared_names::Names;
use crate::file_scope::FileScope;
use crate::meaning::Meaning;
use crate::names::{File, Local};
use pw_base::NoMemory;
use pw_tree::Ref;
use std::alloc::Global;
use std::marker::Model;

/// What is visible: the names at file scope so far, the names of the functions and of the variables that the whole unit
/// defines, and the locals, the newest last.
#[derive(Drop)]
pub struct Scope<'a> {
    pub files: &'a FileScope,
    pub functions: &'a Names,
    pub variables: &'a Names,
    pub locals: Vec<Local>,
}

impl<'a> Model for Scope<'a> {
    ghost use Rattle.pw_types.specs.Scopes.{Scope as Visible};

    ghost Value = { Visible };

    ghost view = { λ s. record { files = s.files.now; functions = s.functions.now; variables = s.variables.now; locals = s.locals.items } };
}

/// Whether a local has this name.
fn is_named(local: &Local, name: &[u8]) -> bool
    ensures { result ≡ bytes_eq local.now.name name.now }
{
    local.name.bytes() == name
}

/// The first local from the back that has this name.
fn last_named<'a>(locals: &'a [Local], name: &[u8]) -> Option<&'a Local>
    ensures { option_copied result ≡ find (λ local. bytes_eq local.name name.now) (reverse locals.now) }
{
    locals.iter().rev().find(|local| is_named(local, name))
}

/// The newest local of a name, which hides the others.
pub fn newest<'a>(locals: &'a [Local], name: &[u8]) -> Option<&'a Local>
    ensures { option_copied result ≡ local_named name.now locals.now }
{
    last_named(locals, name)
}

/// Whether one of these locals has this name.
pub fn has_local(locals: &[Local], name: &[u8]) -> bool
    ensures { result ≡ is_some (local_named name.now locals.now) }
{
    newest(locals, name).is_some()
}

impl<'a> Scope<'a> {
    /// What a name means: the newest local of the name, which hides the others and a name at file scope.
    pub fn meaning(&self, name: &[u8]) -> Meaning<'_>
        ensures { FindsMeaning self.now name.now result }
    {
        match newest(&self.locals, name) {
            Some(local) => Meaning::Local(local),
            None => match self.files.find(name) {
                Some((number, file)) => Meaning::File(number, file),
                None => Meaning::Missing,
            },
        }
    }

    /// How the unit names a function: by its name where its linkage is external, else by its number.
    pub fn function_reference(&self, alloc: Global, file: &File) -> Result<Ref, NoMemory>
        ensures { IfOk result (λ r. r ≡ function_reference self.now file.now) }
    {
        if file.external {
            return Ok(Ref::Global(file.name.copy(alloc)?));
        }
        Ok(Ref::LocalFun(self.functions.number(file.name.bytes())))
    }

    /// How the unit names a variable: by its name where its linkage is external, else by its number.
    pub fn variable_reference(&self, alloc: Global, file: &File) -> Result<Ref, NoMemory>
        ensures { IfOk result (λ r. r ≡ variable_reference self.now file.now) }
    {
        if file.external {
            return Ok(Ref::Global(file.name.copy(alloc)?));
        }
        Ok(Ref::LocalVar(self.variables.number(file.name.bytes())))
    }
}
