//! Laws of whole texts, each the contract of a function.
ghost use Rattle.pw_front.specs.Laws.{OneFault, OneTypedUnit, UnitOrFault};

/// A text has one typed unit or one first fault at most, and not both. Out of memory says nothing of a text.
pub fn a_text_has_one_reading()
    ensures one_unit { OneTypedUnit }
    ensures not_both { UnitOrFault }
    ensures one_fault { OneFault }
{}
