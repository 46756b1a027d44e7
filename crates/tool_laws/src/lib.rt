//! What the definitions of reading, naming, asking and writing say in the terms of JSON, FHIR, npm and HTML, and of the manual: laws, and
//! small examples. So a definition that is changed together with its code is refused. They stand apart, since nothing stands on them: so
//! they cost no other crate's proof.
#![tactic(auto)]

mod archives;
mod commands;
mod fields;
mod gathering;
mod json;
mod listings;
mod names;
mod pages;
mod questions;

pub use archives::{package_files, unmet_dependencies};
pub use commands::{derive_commands, derive_replies, same_questions};
pub use fields::{choices_of_types, counts_of_digits};
pub use gathering::{names_of_files, what_is_dropped};
pub use json::{
    blanks_of_json, escaped_characters, numbers_of_json, values_of_json, written_values,
};
pub use listings::shown_values;
pub use names::{canonicals_with_versions, element_ids, relative_references, resource_ids};
pub use pages::{hidden_characters, written_pages};
pub use questions::{plain_questions, plain_releases, plain_runs};
