//! Laws of the list of a unit's faults and of its typed unit, each the contract of a function.
ghost use Rattle.pw_types.specs.Laws.{FaultsAscend, FirstEndsFirst, FaultsAreWithin, UnitsWithoutFaultsAreWellTyped};

/// The faults of a unit that was read ascend: by the last tokens of their phrases; of two phrases that end at one token, the
/// inner one's first; for one phrase, by rule.
pub fn faults_ascend()
    ensures { FaultsAscend }
{}

/// No fault of a unit that was read ends before the first.
pub fn the_first_fault_ends_first()
    ensures { FirstEndsFirst }
{}

/// The faults of a unit that was read end at tokens of the unit.
pub fn faults_are_within_the_unit()
    ensures { FaultsAreWithin }
{}

/// A unit that was read and has no faults has a well-typed typed unit.
pub fn units_without_faults_are_well_typed()
    ensures { UnitsWithoutFaultsAreWellTyped }
{}
