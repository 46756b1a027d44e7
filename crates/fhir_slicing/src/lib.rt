//! Slices: which items belong to which of an element's slices.
//!
//! A slice has criteria, one for each discriminator of the element that it is a slice of. An item belongs to the slice where
//! each of them finds what it looks for: a value, a pattern, a type, or that something is there or isn't.
//!
//! ```
//! /// Whether an item belongs to the slice that a node is.
//! pub fn is_in_slice(schema: &Schema, slice: NodeRef, item: &Typed<'_, '_>) -> bool
//!     ensures { result ≡ belongs schema.now (criteria schema.now slice) (item_of item.now) }
//! {
//!     belongs(schema, schema.criteria(slice), item)
//! }
//! ```
//!
//! The contract to read first is that of [`belongs`]. `specs/Belonging.antt` has when an item belongs to a slice, and
//! `specs/SameCriteria.antt` when two slices are told apart by the same. The contract of [`belonging_examples`] shows the
//! definitions at work on a small package. What is asked of the items of a slice stands in `fhir_conformance`.
#![tactic(auto)]

mod belonging;
mod laws;
mod sameness;

pub use belonging::{belongs, is_apart, is_sliced, slice_of, two_slices};
pub use laws::{belonging_examples, equal_criteria};
pub use sameness::same_criteria;
