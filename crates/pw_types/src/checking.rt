//! The call that types a unit.
ghost use Rattle.std.specs.Prelude.{◌≡◌, Some, Err, IfOk};
ghost use Rattle.pw_tree.specs.Declarations.{untyped_unit_of};
ghost use Rattle.pw_tree.specs.Placed.{IsParsed};
ghost use Rattle.pw_tree.specs.Proper.{IsRead};
ghost use Rattle.pw_tree.specs.Units.{unit_of};
ghost use Rattle.pw_tree.specs.WellTypedUnits.{IsWellTyped};
ghost use Rattle.pw_types.specs.Faults.{first_of};
ghost use Rattle.pw_types.specs.Nests.{faults_of};
ghost use Rattle.pw_types.specs.Checks.{Checks};

use crate::error::TypeError;
use crate::fault::{Fault, Refusal};
use crate::unit::judge_unit;
use pw_base::Pos;
use pw_tree::{TUnit, Unit};
use std::alloc::Global;

/// The error that the first fault of a unit is, with its token's line.
#[tactic(auto, using(crate::proofs::FirstFault::within))]
fn error_of(unit: &Unit, fault: Fault) -> TypeError
    requires parsed { IsParsed (untyped_unit_of unit.now) }
    requires first { first_of (faults_of (untyped_unit_of unit.now)) ≡ Some fault }
    ensures { Checks unit.now (Err result) }
{
    let lines = unit.lines.as_slice();
    let line = lines[fault.at as usize];
    TypeError::Broken {
        rule: fault.rule,
        at: Pos {
            line,
            token: fault.at as u32,
        },
        name: fault.name,
    }
}

/// The typed unit of a unit that was read, or its first fault.
///
/// The faults of a unit are those of its declarations in order of text, and at its last token the first static function
/// that is declared and not defined. Those of a phrase come after those of its parts, and several of one phrase in the
/// order of `Rule`; `specs/Nests.antt` has them all.
///
/// Refusals: `Broken` exactly where the unit has a fault, with the first. `NoMemory` may come in place of each answer.
pub fn check(alloc: Global, unit: &Unit) -> Result<TUnit, TypeError>
    requires read { IsRead (untyped_unit_of unit.now) }
    ensures answer { Checks unit.now result }
    ensures well_typed { IfOk result (λ typed. IsWellTyped (unit_of typed)) }
{
    match judge_unit(alloc, unit) {
        Ok(typed) => Ok(typed),
        Err(Refusal::Fault(fault)) => Err(error_of(unit, fault)),
        Err(Refusal::NoMemory) => Err(TypeError::NoMemory),
    }
}
