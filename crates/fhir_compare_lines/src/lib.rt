//! What is told of two packages' profiles, as lines of text or as JSON, and the part of a version that has to change.
//!
//! The contract to read first is that of [`comparison_text`]. What breaks whom stands in `specs/Parts.antt`.
#![tactic(auto)]

mod counting;
mod failing;
mod parts;
mod reporting;
mod sources;
mod texts;
mod trees;
mod unmarking;
mod unusable;

pub use counting::{Counts, counts_of};
pub use parts::{Part, part_of};
pub use reporting::comparison_text;
pub use sources::{Side, Sources};
