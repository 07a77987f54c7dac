//! Units that are not well typed, each refused by a law.
ghost use Rattle.pw_tree_tests.specs.IllTyped.{NumberCalled, NumberForPointer, ParameterWithoutLocal, ReadTooEarly, ExternalByNumber, VariableCalled, ElementOfAnotherSize, ValueFromVoid, BreakOutsideLoop, BreakAsLastPart, DeclarationAsLastPart, NameTwice, DefinedTwice, ExternalWithoutName, PointerToSeven, InitialiserTooLong, WideConstant, SumHoldsNothing, TooManyPhrases};

/// A local that is set to a number is no pointer.
pub fn a_number_is_not_called()
    ensures { NumberCalled }
{}

/// A number does not initialise a pointer.
pub fn a_number_is_no_pointer()
    ensures { NumberForPointer }
{}

/// A parameter is one of the locals.
pub fn a_parameter_is_a_local()
    ensures { ParameterWithoutLocal }
{}

/// A local is not read before it is set.
pub fn a_local_is_not_read_too_early()
    ensures { ReadTooEarly }
{}

/// A function with external linkage is not named by its number.
pub fn an_external_function_goes_by_its_name()
    ensures { ExternalByNumber }
{}

/// A name whose text is a variable's is not called.
pub fn a_variable_is_not_called()
    ensures { VariableCalled }
{}

/// An element names the size of its array.
pub fn an_element_is_of_an_array_of_its_size()
    ensures { ElementOfAnotherSize }
{}

/// A function that returns void returns no value.
pub fn a_void_function_returns_no_value()
    ensures { ValueFromVoid }
{}

/// A `break` stands in the body of a loop.
pub fn a_break_is_in_a_loop()
    ensures { BreakOutsideLoop }
{}

/// A `break` is no last part of a `for`, inside another loop too.
pub fn a_break_is_no_last_part()
    ensures { BreakAsLastPart }
{}

/// The last part of a `for` declares no local.
pub fn a_declaration_is_no_last_part()
    ensures { DeclarationAsLastPart }
{}

/// No name stands twice in the list of names.
pub fn a_name_stands_once()
    ensures { NameTwice }
{}

/// No two functions have one name.
pub fn a_name_is_defined_once()
    ensures { DefinedTwice }
{}

/// A function with external linkage stands in the list of names.
pub fn an_external_function_has_its_name()
    ensures { ExternalWithoutName }
{}

/// A pointer is to functions of at most 6 parameters.
pub fn a_pointer_has_at_most_6_parameters()
    ensures { PointerToSeven }
{}

/// An initialiser is no longer than its variable.
pub fn an_initialiser_fits_its_variable()
    ensures { InitialiserTooLong }
{}

/// A constant is below 2 to the 64th.
pub fn a_constant_has_64_bits()
    ensures { WideConstant }
{}

/// A function says how many values its expressions hold.
pub fn held_values_are_counted()
    ensures { SumHoldsNothing }
{}

/// A function has at most 8,192 expressions and statements.
pub fn a_function_has_at_most_8192_phrases()
    ensures { TooManyPhrases }
{}
