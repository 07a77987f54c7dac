//! The laws of modules that are linked, over definitions alone. Each is the contract of a function, which does nothing.

ghost use Rattle.pw_linked.specs.Laws.{LinkedModulesCanRun, LinkedModulesRunAsMeant};
ghost use Rattle.pw_linked.specs.Witness.{ProgramIsLinked};

/// Modules whose units are well typed, within the limits, without a binding fault and with a `main` are a project that can be run.
pub fn linked_modules_can_run()
    ensures { LinkedModulesCanRun }
{}

/// The machine's run of the image of linked modules is what their project means, with the functions alone in memory that the
/// roots lead to, or with all; in either mode each address that is fetched lies in the entry or in such a function. Both modes
/// fetch from the same addresses, put the same output, leave the same input and end in the same way.
pub fn linked_modules_run_as_meant()
    ensures { LinkedModulesRunAsMeant }
{}

/// A program that calls a function of its library is linked: the laws of linked modules are not empty.
pub fn a_program_is_linked()
    ensures { ProgramIsLinked }
{}
