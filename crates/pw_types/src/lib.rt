//! The types of a unit: its typed unit, or the first of its faults.
#![tactic(auto)]

mod checking;
mod declarator;
mod declared;
mod declared_names;
mod defined;
mod error;
mod expression;
mod expression_call;
mod expression_down;
mod expression_form;
mod expression_name;
mod expression_node;
mod expression_step;
mod expression_up;
mod expression_word;
mod external;
mod fault;
mod file_scope;
mod initialiser;
mod laws;
mod meaning;
mod names;
mod parameter;
mod progress;
mod refuse;
mod reserved;
mod role;
mod rule;
mod same;
mod scope;
mod statement;
mod statement_enter;
mod statement_local;
mod statement_resume;
mod statement_set;
mod statement_simple;
mod statement_step;
mod statement_value;
mod statement_walk;
mod type_texts;
mod typed;
mod types;
mod unit;

pub use checking::check;
pub use error::TypeError;
pub use laws::{
    faults_are_within_the_unit, faults_ascend, the_first_fault_ends_first,
    units_without_faults_are_well_typed,
};
pub use rule::Rule;
