//! Faults, where rules are broken.
ghost use Rattle.std.specs.Prelude.{◌≡◌, ⊤, true};
ghost use Rattle.pw_types.specs.Faults as faults;
ghost use Rattle.pw_types.specs.Steps.Refusals.{Judges, Fails};

use crate::fault::{Fault, Refusal};
use crate::rule::Rule;
use pw_base::Name;
use std::alloc::Global;

/// The fault at a token, which is about no name.
pub(crate) fn broken(rule: Rule, at: u64) -> Refusal
    ensures { result ≡ Refusal.Fault (record { rule = rule; at = at; name = None }) }
{
    Refusal::Fault(Fault {
        rule,
        at,
        name: None,
    })
}

/// The fault at a token, which is about a name.
pub(crate) fn broken_by(alloc: Global, rule: Rule, at: u64, name: &Name) -> Refusal
    ensures { Fails (faults.broken_by rule at name.now true) result }
{
    match name.copy(alloc) {
        Ok(name) => Refusal::Fault(Fault {
            rule,
            at,
            name: Some(name),
        }),
        Err(_) => Refusal::NoMemory,
    }
}

/// The fault at a token, where the rule is broken.
pub(crate) fn refuse_if(is_broken: bool, rule: Rule, at: u32) -> Result<(), Refusal>
    ensures { Judges (faults.broken rule at is_broken) (λ _. ⊤) result }
{
    if is_broken {
        Err(broken(rule, u64::from(at)))
    } else {
        Ok(())
    }
}

/// The same for a rule about a name.
pub(crate) fn refuse_name_if(
    alloc: Global,
    is_broken: bool,
    rule: Rule,
    at: u32,
    name: &Name,
) -> Result<(), Refusal>
    ensures { Judges (faults.broken_by rule at name.now is_broken) (λ _. ⊤) result }
{
    if is_broken {
        Err(broken_by(alloc, rule, u64::from(at), name))
    } else {
        Ok(())
    }
}
