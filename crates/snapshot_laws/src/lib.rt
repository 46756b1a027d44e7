//! Laws that say in the standard's words what the snapshot of a profile is (FHIR R4, Profiling, snapshots). No crate of the program
//! stands on them, so they cost none a proof.
#![tactic(auto)]

mod children;
mod completed;
mod differentials;
mod ids;
mod slicings;
mod snapshots;

pub use children::{ids_without_a_slice, new_children};
pub use completed::{completed_definitions, completed_packages};
pub use differentials::{bases_are_named, differentials_hold, slicings_stay};
pub use ids::each_id_once;
pub use slicings::{implied_slicings, new_slices_are_elements, paths_of_new_slices};
pub use snapshots::{base_elements_stay, children_then_slices, new_slices, siblings_come};
