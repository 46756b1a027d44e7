//! What the definitions say of small inputs: a law for each table and each row of it, so that a definition that is changed together with
//! its code is refused. They stand apart from the crates whose words they use, since nothing stands on them: so they cost no other
//! crate's proof.
#![tactic(auto)]

mod code_systems;
mod commands;
mod contents;
mod definitions;
mod drafts;
mod elements;
mod entailing;
mod expressions;
mod folders;
mod packages;
mod pairs;
mod positions;
mod reaching;
mod schemas;
mod sessions;
mod slicings;

pub use code_systems::{code_system_contents, code_system_versions, codes_from_elsewhere};
pub use commands::{commands_example, replies_example};
pub use contents::{companions_example, contents_example, references_of_types};
pub use definitions::{bound_types, derivations, type_kinds};
pub use drafts::draft_example;
pub use elements::{element_example, element_tables};
pub use entailing::{entailment_example, totality_example};
pub use expressions::{escapes, function_names, operators, system_types};
pub use folders::{clashes_example, surveys_example};
pub use packages::{canonicals, file_names};
pub use pairs::{
    children_of_pairs, constraints_of_pairs, first_rule_of_pairs, lengths_of_pairs, roots_of_pairs,
    slices_of_pairs, values_of_pairs,
};
pub use positions::{positions_example, stops_example};
pub use reaching::{changed_keys, followed_keys, named_keys, standing_keys, starting_keys};
pub use schemas::{covering_example, reasons_example};
pub use sessions::{lists_put_in, lists_refused, starts_example, urls_removed};
pub use slicings::{discriminators_example, orders_of_slices};
