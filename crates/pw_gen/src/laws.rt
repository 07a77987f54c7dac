//! The law of objects, the contract of a function.
ghost use Rattle.pw_gen.specs.Laws.{ObjectsAreSound};

/// A well-typed unit has a sound object.
pub fn objects_are_sound()
    ensures { ObjectsAreSound }
{}
