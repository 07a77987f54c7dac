//! The way from a root to a kept function.
ghost use Rattle.std.specs.Prelude.{◌≡◌, ◌<◌, Some, length, IfOk, [], ◌∷◌, ◌++◌};
ghost use Rattle.pw_close.specs.Closure.{level_of};
ghost use Rattle.pw_close.specs.Paths.{HaveParents, FindsPath};

use crate::graph::Levels;
use pw_base::NoMemory;
use std::alloc::Global;

/// The functions from a root to function `n` by parents, both among them; `None` exactly where `n` is not kept.
/// `NoMemory` alone is a refusal.
pub fn path(alloc: Global, levels: &Levels, n: u32) -> Result<Option<Vec<u32>>, NoMemory>
    requires parents { HaveParents levels.now }
    requires within { n < length levels.now.level.items }
    ensures { FindsPath levels.now n result }
{
    match levels.level[n as usize] {
        None => Ok(None),
        Some(level) => climbed(alloc, levels, n, level),
    }
}

/// The path to a kept function of this level.
fn climbed(alloc: Global, levels: &Levels, n: u32, level: u32) -> Result<Option<Vec<u32>>, NoMemory>
    requires parents { HaveParents levels.now }
    requires level { level_of levels.now n ≡ Some level }
    ensures { FindsPath levels.now n result }
{
    let mut path = Vec::new(alloc);
    append(&mut path, n)?;
    let mut at = n;
    for _edge in 0..level {
        at = levels.parent[at as usize].unwrap();
        append(&mut path, at)?;
    }
    path.reverse();
    Ok(Some(path))
}

/// Puts a function at the path's end.
fn append(path: &mut Vec<u32>, n: u32) -> Result<(), NoMemory>
    ensures { IfOk result (λ _. path.new.items ≡ path.old.items ++ n ∷ []) }
{
    path.push(n).map_err(|_| NoMemory)
}
