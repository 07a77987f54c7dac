//! Units that are well typed, each by a law.
ghost use Rattle.pw_tree.specs.WellTypedUnits.{IsWellTyped};
ghost use Rattle.pw_tree_tests.specs.ArithmeticUnits.{wrapping_sum, quotient_by_zero, least_by_minus_one};
ghost use Rattle.pw_tree_tests.specs.ArrayUnits.{index_minus_one, index_of_the_size, last_index};
ghost use Rattle.pw_tree_tests.specs.LoopUnits.{dots, one_break};
ghost use Rattle.pw_tree_tests.specs.CallUnits.{empty_main, null_callee, thousand_calls, one_call_more};
ghost use Rattle.pw_tree_tests.specs.ModuleUnits.{calling_unit, called_unit, letter_counter, number_printer};
ghost use Rattle.pw_tree_tests.specs.Countdown.{countdown};

/// A unit with a loop, a local, a static function and a variable is well typed.
pub fn a_countdown_is_well_typed()
    ensures { IsWellTyped countdown }
{}

/// Units of sums and quotients, of which one wraps and one divides by 0, are well typed.
pub fn units_of_arithmetic_are_well_typed()
    ensures wrapping_sum { IsWellTyped wrapping_sum }
    ensures quotient_by_zero { IsWellTyped quotient_by_zero }
    ensures least_by_minus_one { IsWellTyped least_by_minus_one }
{}

/// Units that read an array at its last index, and outside it, are well typed.
pub fn units_with_an_array_are_well_typed()
    ensures index_minus_one { IsWellTyped index_minus_one }
    ensures index_of_the_size { IsWellTyped index_of_the_size }
    ensures last_index { IsWellTyped last_index }
{}

/// Units with an endless loop, and with one that is left, are well typed.
pub fn units_with_a_loop_are_well_typed()
    ensures dots { IsWellTyped dots }
    ensures one_break { IsWellTyped one_break }
{}

/// Units that call nothing, null, or themselves a thousand times are well typed.
pub fn units_with_calls_are_well_typed()
    ensures empty_main { IsWellTyped empty_main }
    ensures null_callee { IsWellTyped null_callee }
    ensures thousand_calls { IsWellTyped thousand_calls }
    ensures one_call_more { IsWellTyped one_call_more }
{}

/// Units that call a library, and the units of those libraries, are well typed.
pub fn units_of_two_modules_are_well_typed()
    ensures calling_unit { IsWellTyped calling_unit }
    ensures called_unit { IsWellTyped called_unit }
    ensures letter_counter { IsWellTyped letter_counter }
    ensures number_printer { IsWellTyped number_printer }
{}
