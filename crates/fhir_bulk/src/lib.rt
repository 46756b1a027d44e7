//! Validation of many resources, of files and lines in turn.
//!
//! The contract to read first is that of [`validate_inputs`]. What a run is stands in `specs/Running.antt`, how what is told of a
//! line is written in `specs/Rows.antt`; what that is says `fhir_telling`.
#![tactic(auto)]

mod heading;
mod laws;
mod relied;
mod rows;
mod running;
mod tally;
mod teller;
mod watch;

pub use laws::rows_are_lines;
pub use running::{RunFault, validate_inputs};
pub use tally::Tally;
pub use watch::Watch;
