//! The image of one unit's object: which functions are kept, the bytes of its text and data, and the rows that say what became
//! of each function; and that this is what the project of the unit is in memory.
#![tactic(auto)]

mod data;
mod graph;
mod laws;
mod report;
mod text;
mod undefined;

pub use data::relocated_data;
pub use graph::graph_of;
pub use laws::{
    blanked_text_is_image, dependencies_are_names, edges_are_leads, functions_are_few,
    functions_stand, kept_alike, levels_alike, parents_alike, records_are_all,
    records_have_symbols, records_lie_in_text, references_have_records, relocated_data_are_image,
    relocations_lie_in_data, roots_are_roots, rows_are_rows, rows_find_kept, rows_keep_levels,
    slots_stand, tables_show_projects, targets_stand, text_is_image, undefined_is_unbound,
    units_without_faults_can_run, variables_stand,
};
pub use report::rows;
pub use text::kept_text;
pub use undefined::first_undefined;
