//! The laws of projects and of their images, over definitions alone. Each is the contract of a function, which does nothing.

ghost use Rattle.pw_simulation.specs.Encodable.{WellTypedCodeHasWords};
ghost use Rattle.pw_simulation.specs.ImageRuns.{TheImageRunsAsMeant, TheImageBeginsAsMeant, ImagesRunAlike};
ghost use Rattle.pw_simulation.specs.ProjectLaws.{ImagesAreSeen, FunctionsStandApart, KeptIsEnough, AllIsEnough, BodiesAreLinked, ProjectsAreRunnable, ImagesAreReady};

/// The world of a project that can be run shows the project, as far as it is kept: each kept function stands at its place, and
/// no two things have one address.
pub fn images_are_seen()
    ensures { ImagesAreSeen }
{}

/// No address lies inside two functions of a project that can be run, nor inside a function and in the entry.
pub fn functions_stand_apart()
    ensures { FunctionsStandApart }
{}

/// It is enough to keep the functions that the roots lead to.
pub fn kept_is_enough()
    ensures { KeptIsEnough }
{}

/// It is enough to keep all functions.
pub fn all_is_enough()
    ensures { AllIsEnough }
{}

/// Each name in the body of a kept function means what its unit says of it: a variable of that type and size, or a kept function
/// of that signature.
pub fn bodies_are_linked()
    ensures { BodiesAreLinked }
{}

/// A project that can be run, of which enough is kept, has a world in which it can be run: the bodies of its kept functions are
/// well typed and linked, there is a `main`, and its code is that of the entry and of kept functions alone.
pub fn projects_are_runnable()
    ensures { ProjectsAreRunnable }
{}

/// Each instruction of a well-typed function's code has a word: its operands have room in the instruction's format.
pub fn well_typed_code_has_words()
    ensures { WellTypedCodeHasWords }
{}

/// The image of a project that can be run, of which enough is kept, is ready for a run, whatever it has in memory beside that: the
/// code of the entry and of kept functions is fetched from it, slots hold the addresses of what their names mean, the stack is
/// there, and each element of each variable has its initial value.
pub fn images_are_ready()
    ensures { ImagesAreReady }
{}

/// The machine's run of the image of a project that can be run, of which enough is kept, is what the project means: its output, the
/// input that it leaves, and its end, with every address that is fetched in the entry or in a kept function. That is so of a
/// piece-wise run, with what is kept in memory, and of a whole one, with all functions in memory.
pub fn the_image_runs_as_meant()
    ensures { TheImageRunsAsMeant }
{}

/// Where that run is cut short, in either mode, it did a beginning of what the project means.
pub fn the_image_begins_as_meant()
    ensures { TheImageBeginsAsMeant }
{}

/// Two images of one project that can be run, which have at least what is kept in memory, run alike: they fetch from the same
/// addresses, put the same output, leave the same input and end in the same way. So a piece-wise and a whole run do the same.
pub fn images_run_alike()
    ensures { ImagesRunAlike }
{}
