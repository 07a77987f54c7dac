//! The laws of a run, over definitions alone. Each is the contract of a function, which does nothing.

ghost use Rattle.pw_simulation.specs.AnyRuns.{SealedTextStaysInRuns, LimitedRunsGoOn, EndedRunsStay, LimitedRunsAreMeant};
ghost use Rattle.pw_simulation.specs.Calls.{ExpressionsRun};
ghost use Rattle.pw_simulation.specs.Laws.{AddressesAreBrought, LoadsAreCarriedOut, StoresAreCarriedOut, FaultsStop};
ghost use Rattle.pw_simulation.specs.Programs.{CallsAreMeant, TheRunIsTheMeaning};
ghost use Rattle.pw_simulation.specs.Statements.{StatementsRun};
ghost use Rattle.pw_simulation.specs.Straight.{LoadImmediateLoads};
ghost use Rattle.pw_simulation.specs.Witness.{WorldSees};

/// The code that loads a number leaves it in its register, whatever number of 64 bits it is.
pub fn load_immediate_loads()
    ensures { LoadImmediateLoads }
{}

/// A pair of instructions brings the address of what a name means: by its slot, or of the unit's own definition.
pub fn addresses_are_brought()
    ensures { AddressesAreBrought }
{}

/// The code of a checked fault ends the run, with the fault's kind and line, inside the function that it stands in.
pub fn faults_stop()
    ensures { FaultsStop }
{}

/// A doubleword of memory is loaded into a register.
pub fn loads_are_carried_out()
    ensures { LoadsAreCarriedOut }
{}

/// A register is stored in a doubleword of memory.
pub fn stores_are_carried_out()
    ensures { StoresAreCarriedOut }
{}

/// If calls do what they mean, the code of an expression does what the expression comes to.
pub fn expressions_run()
    ensures { ExpressionsRun }
{}

/// If calls do what they mean, the code of statements does what the statements come to.
pub fn statements_run()
    ensures { StatementsRun }
{}

/// There is a world that shows a project, with a variable, function values in it, a loop, an index and a call through a
/// pointer: the laws about worlds are not empty.
pub fn a_world_shows_a_project()
    ensures { WorldSees }
{}

/// However long a run is, the text of a sealed memory stays, and so do its regions.
pub fn sealed_text_stays_in_runs()
    ensures { SealedTextStaysInRuns }
{}

/// A run that stops at its limit is the beginning of each longer run.
pub fn limited_runs_go_on()
    ensures { LimitedRunsGoOn }
{}

/// A run that ended before its limit is the same with each greater limit.
pub fn ended_runs_stay()
    ensures { EndedRunsStay }
{}

/// The machine does what each call of a kept function comes to.
pub fn calls_are_meant()
    ensures { CallsAreMeant }
{}

/// The machine's run, from the entry to its end, is what the project means.
pub fn the_run_is_the_meaning()
    ensures { TheRunIsTheMeaning }
{}

/// A run that is cut short does the beginning of what the project means.
pub fn limited_runs_are_meant()
    ensures { LimitedRunsAreMeant }
{}
