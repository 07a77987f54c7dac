//! A fault of a unit, before its line is known.

use crate::rule::Rule;
use pw_base::{Name, NoMemory};
use std::alloc::AllocError;

/// A rule that is broken.
#[derive(Debug, Drop)]
pub struct Fault {
    pub rule: Rule,
    /// The last token of the phrase that breaks it, counted from 0. A place that is computed from another may be further
    /// than a `u32` holds, until the whole unit is known to be well placed.
    pub at: u64,
    /// The name that it is about, where it has one.
    pub name: Option<Name>,
}

/// Why a phrase has no typed tree.
#[derive(Debug, Drop)]
pub enum Refusal {
    /// Its first fault.
    Fault(Fault),
    /// Out of memory.
    NoMemory,
}

impl From<NoMemory> for Refusal {
    ghost use Rattle.std.specs.Prelude.{◌≡◌};
    ghost use Rattle.pw_types.specs.declared.fault.Refusal.TheVariants as refusals;

    ghost from_gives = { λ _ e. e ≡ refusals.NoMemory };

    fn from(_: NoMemory) -> Refusal {
        Refusal::NoMemory
    }
}

impl From<AllocError> for Refusal {
    ghost use Rattle.std.specs.Prelude.{◌≡◌};
    ghost use Rattle.pw_types.specs.declared.fault.Refusal.TheVariants as refusals;

    ghost from_gives = { λ _ e. e ≡ refusals.NoMemory };

    fn from(_: AllocError) -> Refusal {
        Refusal::NoMemory
    }
}
