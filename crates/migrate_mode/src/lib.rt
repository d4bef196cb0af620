//! The mode that carries layers through a triangulation, and the maker of an example of it.
#![tactic(auto)]

mod change_lists;
mod laws;
mod layer_runs;
mod maker;
mod maker_texts;
mod migration_output;
mod migrations;
mod partial_runs;
mod refusals;
mod report;

pub use change_lists::{MOST_CHANGES, MOST_SIDES, list_changes, list_sides};
pub use laws::{
    limits_are_stated, making_exists, making_is_one, making_keeps_relations, migration_exists,
    migration_is_one, migration_keeps_relations,
};
pub use layer_runs::{CarriedLayers, cert_name};
pub use maker::prepare_making;
pub use maker_texts::{make_layer, make_tin};
pub use migration_output::{ReportedOutput, prepare_migration};
pub use migrations::{Migration, load_index};
pub use partial_runs::{begin_run, carry_one};
