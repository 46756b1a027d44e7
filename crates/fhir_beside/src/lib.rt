//! OLD's profiles beside NEW's definitions, in one package.
//!
//! The contract to read first is that of [`beside`]. What is made stands in `specs/Beside.antt`.
#![tactic(auto)]

mod binding_sets;
mod bindings;
mod entries;
mod laws;
mod listing;
mod making;
mod moving;
mod profile;
mod putting;
mod types;

pub use laws::{concepts_mean_new, definitions_stay, listed_sets_are_read, names_mean_new};
pub use making::{Made, beside};
pub use profile::{Profile, profile_at};
