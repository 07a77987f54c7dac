//! Copies of several items, one after another.
ghost use Rattle.std.specs.Prelude.{◌≡◌, IfOk};

use pw_base::NoMemory;
use sqlite_items::Items;
use std::alloc::Global;

/// What can be copied into memory of its own.
pub(crate) trait Duplicate: Drop {
    /// An equal value.
    fn duplicate(&self, alloc: Global) -> Result<Self, NoMemory>
        ensures { IfOk result (λ copy. copy ≡ self.now) };
}

/// Equal items.
pub(crate) fn copy_all<T: Duplicate>(alloc: Global, items: &[T]) -> Result<Items<T>, NoMemory>
    ensures { IfOk result (λ copy. copy ≡ items.now) }
{
    let mut copies = Items::new(alloc);
    for item in items {
        copies.push(item.duplicate(alloc)?)?;
    }
    Ok(copies)
}
