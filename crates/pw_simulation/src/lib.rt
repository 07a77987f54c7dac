//! What a run of a project's image has to do with what the project means: the laws that tie the machine's steps to the
//! meaning's, one piece of code after another.
#![tactic(auto)]

mod laws;
mod projects;

pub use laws::{
    a_world_shows_a_project, addresses_are_brought, calls_are_meant, ended_runs_stay,
    expressions_run, faults_stop, limited_runs_are_meant, limited_runs_go_on, load_immediate_loads,
    loads_are_carried_out, sealed_text_stays_in_runs, statements_run, stores_are_carried_out,
    the_run_is_the_meaning,
};
pub use projects::{
    all_is_enough, bodies_are_linked, functions_stand_apart, images_are_ready, images_are_seen,
    images_run_alike, kept_is_enough, projects_are_runnable, the_image_begins_as_meant,
    the_image_runs_as_meant, well_typed_code_has_words,
};
