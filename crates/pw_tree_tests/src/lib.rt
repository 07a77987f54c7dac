//! What is a well-typed unit and what is not: units that were written out, each held against the definition by a law. And
//! with ample memory each part of a tree is copied, whole.
#![tactic(auto)]

#[cfg(test)]
mod copies_of_expressions;
#[cfg(test)]
mod copies_of_parts;
#[cfg(test)]
mod copies_of_statements;
mod ill_typed;
mod well_typed;

pub use ill_typed::{
    a_break_is_in_a_loop, a_break_is_no_last_part, a_constant_has_64_bits,
    a_declaration_is_no_last_part, a_function_has_at_most_8192_phrases,
    a_local_is_not_read_too_early, a_name_is_defined_once, a_name_stands_once,
    a_number_is_no_pointer, a_number_is_not_called, a_parameter_is_a_local,
    a_pointer_has_at_most_6_parameters, a_variable_is_not_called, a_void_function_returns_no_value,
    an_element_is_of_an_array_of_its_size, an_external_function_goes_by_its_name,
    an_external_function_has_its_name, an_initialiser_fits_its_variable, held_values_are_counted,
};
pub use well_typed::{
    a_countdown_is_well_typed, units_of_arithmetic_are_well_typed,
    units_of_two_modules_are_well_typed, units_with_a_loop_are_well_typed,
    units_with_an_array_are_well_typed, units_with_calls_are_well_typed,
};
