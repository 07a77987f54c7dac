//! Where the parts of one unit's object stand, and what they hold, is what the project of that unit says. Each law is the
//! contract of a function, which does nothing.
ghost use Rattle.pw_image.specs.Laws.{FunctionsStand, SlotsStand, VariablesStand, TargetsStand, TextIsImage, BlankedTextIsImage, RelocatedDataAreImage, ReferencesHaveRecords, DependenciesAreNames, UnitsWithoutFaultsCanRun, UndefinedIsUnbound, RowsAreRows, RowsKeepLevels, RecordsLieInText, RelocationsLieInData, RecordsHaveSymbols, RecordsAreAll, FunctionsAreFew};
ghost use Rattle.pw_image.specs.Rows.{RowsFindKept};
ghost use Rattle.pw_image.specs.Nodes.{KeptAlike, LevelsAlike, ParentsAlike, EdgesAreLeads, RootsAreRoots, TablesShowProjects};

/// Each function stands where the project's image has it.
pub fn functions_stand()
    ensures { FunctionsStand }
{}

/// The same names have slots, in the same order.
pub fn slots_stand()
    ensures { SlotsStand }
{}

/// Each variable stands where the project's image has it, though the object has another order of variables.
pub fn variables_stand()
    ensures { VariablesStand }
{}

/// What code reaches by a reference stands at the same address.
pub fn targets_stand()
    ensures { TargetsStand }
{}

/// The text that is placed is that of the image in which every function is kept.
pub fn text_is_image()
    ensures { TextIsImage }
{}

/// With zeros in place of the functions that are not kept, it is that of the image in which the others are.
pub fn blanked_text_is_image()
    ensures { BlankedTextIsImage }
{}

/// With addresses in the places of the relocations, the data that are placed are those of the image.
pub fn relocated_data_are_image()
    ensures { RelocatedDataAreImage }
{}

/// The symbol of a reference to a function has the record of what the reference designates.
pub fn references_have_records()
    ensures { ReferencesHaveRecords }
{}

/// A graph that shows a project keeps the same functions.
pub fn kept_alike()
    ensures { KeptAlike }
{}

/// Each function has the same level in it.
pub fn levels_alike()
    ensures { LevelsAlike }
{}

/// Each function has the same parent in it.
pub fn parents_alike()
    ensures { ParentsAlike }
{}

/// Of what a well-typed body names, the functions are the function's dependencies.
pub fn dependencies_are_names()
    ensures { DependenciesAreNames }
{}

/// The edges between the records of an object's functions are what those functions lead to.
pub fn edges_are_leads()
    ensures { EdgesAreLeads }
{}

/// The roots among the records are those of the project.
pub fn roots_are_roots()
    ensures { RootsAreRoots }
{}

/// The graph of an object's dependency table shows the project.
pub fn tables_show_projects()
    ensures { TablesShowProjects }
{}

/// The rows of a unit's program find what is kept of its project.
pub fn rows_find_kept()
    ensures { RowsFindKept }
{}

/// The rows of the placed object keep the functions that have a level.
pub fn rows_keep_levels()
    ensures { RowsKeepLevels }
{}

/// A unit whose object has no fault as a program, and which uses no name without a definition, can be run.
pub fn units_without_faults_can_run()
    ensures { UnitsWithoutFaultsCanRun }
{}

/// The first symbol without a definition is that of the first name that the unit uses and does not define.
pub fn undefined_is_unbound()
    ensures { UndefinedIsUnbound }
{}

/// The rows of the placed object are those of the unit's program.
pub fn rows_are_rows()
    ensures { RowsAreRows }
{}

/// Every function's record lies in the text.
pub fn records_lie_in_text()
    ensures { RecordsLieInText }
{}

/// Every relocation lies in the data.
pub fn relocations_lie_in_data()
    ensures { RelocationsLieInData }
{}

/// Every record of a function has a symbol.
pub fn records_have_symbols()
    ensures { RecordsHaveSymbols }
{}

/// There are as many records as functions, and one for the entry.
pub fn records_are_all()
    ensures { RecordsAreAll }
{}

/// A program without a fault has fewer functions than numbers of 32 bits.
pub fn functions_are_few()
    ensures { FunctionsAreFew }
{}
