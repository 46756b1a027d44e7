//! Target profiles of references compared in near linear time (FHIR R4, ElementDefinition, type.targetProfile).
//!
//! `Facet::narrower` of `Targets` takes no memory, and holds each target against each of the base's. Here the base's are put
//! into an order first, by their texts and by their types. Then each target is looked up, and so are the bases of its type.
//!
//! ```
//! /// Whether references of a type entry may lead wherever those of another may.
//! pub fn leads_as_far(
//!     alloc: Global,
//!     schema: &Schema,
//!     entry: &TypeEntry,
//!     other: &TypeEntry,
//! ) -> Result<bool, NoMemory>
//!     ensures { Gives (λ b. b) result (targets_narrower schema.now other.now entry.now) }
//! {
//!     targets_narrower(alloc, schema, other, entry)
//! }
//! ```
//!
//! Read first the contract of [`targets_narrower`].
#![tactic(auto)]

mod base;
mod chains;
mod narrower;
mod texts;

pub use narrower::targets_narrower;
