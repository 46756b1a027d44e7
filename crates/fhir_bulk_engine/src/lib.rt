//! The engine of `validate-all`: from words to the resources of files, and how each stands.
//!
//! The contracts to read first are those of [`validate_folder`] and of `validate_inputs` of `fhir_bulk`. How a run ends stands in
//! `specs/Ending.antt`, and what it is a run of in `specs/Bulk.antt`.
#![tactic(auto)]

mod asked;
mod file_inputs;
mod plan;
mod rate_meter;
mod running;
mod source;

pub use asked::{Asked, Planned};
pub use file_inputs::FileInputs;
pub use plan::{InputFile, Origin, Plan, PlanFault, plan_inputs};
pub use rate_meter::RateMeter;
pub use running::{validate_directory, validate_folder};
pub use source::Source;
