//! What projects of several modules are in memory: projects that were written out, each with its load order, its places,
//! the functions that it keeps, and the words of its image.
#![tactic(auto)]

ghost use Rattle.pw_agree_tests.specs.Binding.{IsBoundSo};
ghost use Rattle.pw_agree_tests.specs.BreadthFirst.{SearchIsBreadthFirst};
ghost use Rattle.pw_agree_tests.specs.Interposition.{ProgramInterposes};
ghost use Rattle.pw_agree_tests.specs.PointerInLibrary.{PointerKeeps};
ghost use Rattle.pw_agree_tests.specs.ReadModules.{ReadModulesAreSearched};
ghost use Rattle.pw_agree_tests.specs.StaticNames.{StaticNamesAreOwn};
ghost use Rattle.pw_agree_tests.specs.Variables.{InitialisedStandFirst};

/// A function that the program defines too is the program's in the library as well, and the library's own is not kept.
pub fn the_program_interposes()
    ensures { ProgramInterposes }
{}

/// A function that data point to is kept, whether or not anything names it.
pub fn a_pointer_in_a_library_keeps_its_function()
    ensures { PointerKeeps }
{}

/// A static name means its own unit's function.
pub fn a_static_name_means_its_own_unit()
    ensures { StaticNamesAreOwn }
{}

/// A module that the program needs is searched before those that only its libraries need.
pub fn modules_are_searched_breadth_first()
    ensures { SearchIsBreadthFirst }
{}

/// Variables stand after the slots, those with an initialiser first.
pub fn initialised_variables_stand_first()
    ensures { InitialisedStandFirst }
{}

/// A name that is used has one definition, with the type that it is declared with, or there is a fault.
pub fn names_are_bound_or_faulty()
    ensures { IsBoundSo }
{}

/// Modules that were read are loaded breadth first, their names mean the first definition, and a function is kept by their tables.
pub fn read_modules_are_searched()
    ensures { ReadModulesAreSearched }
{}
