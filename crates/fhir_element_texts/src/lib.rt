//! What an element allows, in words.
//!
//! ```
//! /// How many there may be of an element, and how long its texts may be.
//! pub fn bounds_text(alloc: Global, element: &ElementDef) -> Result<String, AllocError> {
//!     let cardinality = cardinality_text(alloc, element)?;
//!     let length = length_text(alloc, element)?;
//!     format!(in alloc; "{} of {}", cardinality.as_str(), length.as_str())
//! }
//! ```
//!
//! The contracts to read first are those of [`cardinality_text`] and [`node_types_text`]. What they say stands in `specs/Texts.antt`.
#![tactic(auto)]

mod types;
mod values;

pub use types::{node_types_text, types_text};
pub use values::{cardinality_text, json_text, length_text, member_text, members_text};
