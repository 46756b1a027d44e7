//! What elements ask for that can never hold, as nothing can meet it (FHIR R4, ElementDefinition).
//!
//! ```
//! /// Whether no element of the definition at a place asks for what can never hold.
//! pub fn is_consistent(alloc: Global, schema: &Schema, place: usize) -> Result<bool, NoMemory>
//!     ensures { IfOk result (λ is. IsTrue is ↔ (contradictions schema.now place ≡ [])) }
//! {
//!     let regular = fhir_contradictions::are_regular(schema);
//!     Ok(fhir_contradictions::contradictions(alloc, schema, regular, place)?.is_empty())
//! }
//! ```
//!
//! The contracts to read first are those of the laws: [`fixed_values`], [`fixed_types`], [`required_types`], [`slices_together`],
//! [`slice_types`] and [`slice_values`] each say of a contradiction that no item meets what is asked, whatever the unread rules mean, and
//! [`typed_items`] and [`regular_types`] of which types items can be. [`contradictions`] lists those of a definition. What each of them is
//! stands in `specs/Contradictions.antt`, and of which types items can be in `specs/Typing.antt`.
#![tactic(auto)]

mod along;
mod children_laws;
mod contradiction;
mod fixed;
mod known;
mod laws;
mod listing;
mod regular;
mod regular_laws;
mod slices;
mod typing;
mod typing_laws;

pub use children_laws::{conforming_children, names_apart, usable_nodes};
pub use contradiction::Contradiction;
pub use laws::{fixed_values, slice_types, slice_values, slices_together};
pub use listing::contradictions;
pub use regular::are_regular;
pub use regular_laws::regular_types;
pub use typing_laws::{fixed_types, required_types, typed_items};
