//! The bytes of a table, written record by record in the order of the format.
ghost use Rattle.std.specs.Prelude.{◌≡◌, ◌<◌, ◌^◌, ◌++◌, length, IfOk, OnOk};
ghost use Rattle.std.specs.List.{flat_map, AllByRecursion};
ghost use Rattle.pw_module.specs.Spelling as spelling;
ghost use Rattle.pw_deps.specs.Writable.{HasFewItems};

use crate::field::NO_UNIT;
use pw_base::{Name, NoMemory};
use pw_module::{DepTable, FunRec, RootRec, TypeRec};
use pw_wire::put_u32;
use std::alloc::Global;

/// Appends the length of a string, then the string.
fn put_sized_string(to: &mut Vec<u8>, bytes: &[u8]) -> Result<(), NoMemory>
    requires { length bytes.now < 2 ^ 32 }
    ensures { OnOk result (to.new.items ≡ to.old.items ++ spelling.sized_string_bytes bytes.now) }
{
    put_u32(to, bytes.len() as u32)?;
    to.extend_from_slice(bytes)?;
    Ok(())
}

/// Appends the units' names.
fn put_units(to: &mut Vec<u8>, units: &[Name]) -> Result<(), NoMemory>
    ensures { OnOk result (to.new.items ≡ to.old.items ++ flat_map spelling.sized_string_bytes units.now) }
{
    for unit in units {
        put_sized_string(to, unit.bytes())?;
    }
    Ok(())
}

/// Appends numbers.
fn put_numbers(to: &mut Vec<u8>, numbers: &[u32]) -> Result<(), NoMemory>
    ensures { OnOk result (to.new.items ≡ to.old.items ++ flat_map spelling.number_bytes numbers.now) }
{
    for n in numbers {
        put_u32(to, *n)?;
    }
    Ok(())
}

/// Appends a function.
#[tactic(auto, unfolding(pw_module::specs::Spelling::function_bytes))]
fn put_function(to: &mut Vec<u8>, function: &FunRec) -> Result<(), NoMemory>
    requires { length function.now.deps < 2 ^ 32 }
    ensures { OnOk result (to.new.items ≡ to.old.items ++ spelling.function_bytes function.now) }
{
    let unit = match function.unit {
        Some(unit) => unit,
        None => NO_UNIT,
    };
    put_u32(to, function.sym)?;
    put_u32(to, unit)?;
    put_u32(to, function.start)?;
    put_u32(to, function.size)?;
    put_u32(to, function.deps.len() as u32)?;
    put_numbers(to, function.deps.as_slice())?;
    Ok(())
}

/// Appends the functions.
fn put_functions(to: &mut Vec<u8>, functions: &[FunRec]) -> Result<(), NoMemory>
    requires { AllByRecursion (λ f. length f.deps < 2 ^ 32) functions.now }
    ensures { OnOk result (to.new.items ≡ to.old.items ++ flat_map spelling.function_bytes functions.now) }
{
    for function in functions {
        put_function(to, function)?;
    }
    Ok(())
}

/// Appends the roots.
#[tactic(auto, unfolding(pw_module::specs::Spelling::root_bytes))]
fn put_roots(to: &mut Vec<u8>, roots: &[RootRec]) -> Result<(), NoMemory>
    ensures { OnOk result (to.new.items ≡ to.old.items ++ flat_map spelling.root_bytes roots.now) }
{
    for root in roots {
        put_u32(to, root.var)?;
        put_u32(to, root.fun)?;
    }
    Ok(())
}

/// Appends the types.
#[tactic(auto, unfolding(pw_module::specs::Spelling::type_bytes))]
fn put_types(to: &mut Vec<u8>, types: &[TypeRec]) -> Result<(), NoMemory>
    ensures { OnOk result (to.new.items ≡ to.old.items ++ flat_map spelling.type_bytes types.now) }
{
    for found in types {
        put_u32(to, found.sym)?;
        put_sized_string(to, found.text.bytes())?;
    }
    Ok(())
}

/// Appends the version and the counts.
#[tactic(auto, unfolding(pw_module::specs::Spelling::head_bytes))]
fn put_head(to: &mut Vec<u8>, table: &DepTable) -> Result<(), NoMemory>
    requires { HasFewItems table.now }
    ensures { OnOk result (to.new.items ≡ to.old.items ++ spelling.head_bytes table.now) }
{
    put_u32(to, table.version)?;
    put_u32(to, table.units.len() as u32)?;
    put_u32(to, table.funs.len() as u32)?;
    put_u32(to, table.roots.len() as u32)?;
    put_u32(to, table.types.len() as u32)?;
    Ok(())
}

/// The bytes of the table. `NoMemory` alone is a refusal.
///
/// The table has fewer than 2^32 units, functions, roots and types, and each function depends on fewer than 2^32 symbols, so
/// that fields of four bytes hold their numbers. Each allowed table is so, by `allowed_tables_can_be_written`, and its bytes
/// are read as that table again.
#[tactic(auto, unfolding(pw_module::specs::Spelling::table_bytes))]
pub fn write(alloc: Global, table: &DepTable) -> Result<Vec<u8>, NoMemory>
    requires { HasFewItems table.now }
    ensures { IfOk result (λ bytes. bytes.items ≡ spelling.table_bytes table.now) }
{
    let mut bytes = Vec::new(alloc);
    put_head(&mut bytes, table)?;
    put_units(&mut bytes, table.units.as_slice())?;
    put_functions(&mut bytes, table.funs.as_slice())?;
    put_roots(&mut bytes, table.roots.as_slice())?;
    put_types(&mut bytes, table.types.as_slice())?;
    Ok(bytes)
}
