//! JSON as lines, with a place marked.
//!
//! ```
//! /// A patient whose gender is marked.
//! pub fn gender(alloc: Global) -> Result<Element, NoMemory> {
//!     fhir_marked_json::listed(alloc, b"{\"resourceType\":\"Patient\",\"gender\":\"x\"}", "Patient.gender")
//! }
//! ```
//!
//! The contract to read first is that of [`listed`].
#![tactic(auto)]

mod listing;
mod pieces;
mod way;

pub use listing::listed;
