//! The law that the limits of the code are those of the specification.
ghost use Rattle.pw_base.specs.LimitsOfCode.{LimitsAgree};

/// Each constant of `Limits` is the number that the specification has under its name.
pub fn limits_are_those_of_the_specification()
    ensures { LimitsAgree }
{}
