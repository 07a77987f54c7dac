//! Names, places in a text, the limits of the product, and numbers as little-endian bytes: what every layer speaks of.
#![tactic(auto)]

mod file_laws;
mod kinds;
mod laws;
mod limit_laws;
mod limits;
mod name;
mod no_memory;
mod pos;
mod type_text;

pub use file_laws::{
    fields_are_read_as_they_are_written, laid_parts_stand_at_their_places,
    structs_are_read_as_they_are_written, tests_of_texts_are_right, the_least_is_found,
};
pub use kinds::{Kind, Mode};
pub use laws::{bytes_of_a_value_give_it_back, value_of_bytes_gives_them_back};
pub use limit_laws::limits_are_those_of_the_specification;
pub use limits::Limits;
pub use name::{Name, NameError};
pub use no_memory::NoMemory;
pub use pos::Pos;
pub use type_text::TypeText;
