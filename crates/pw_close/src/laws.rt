//! Laws of levels, each the contract of a function.
ghost use Rattle.pw_close.specs.Laws.{KeptByWays, KeptHaveLevels, LevelsAreKept, ParentsAreLower};

/// A function is kept exactly if some way leads to it from a root; where levels are given, exactly if it has one; and a kept
/// function above level 0 has its parent one level lower, so the parents of a kept function lead to a root.
pub fn kept_functions_have_levels()
    ensures ways { KeptByWays }
    ensures have { KeptHaveLevels }
    ensures only { LevelsAreKept }
    ensures lower { ParentsAreLower }
{}
