//! Walking: whether an item conforms to a node, told in one pass that keeps nothing.
//!
//! Most resources conform. That can be told by going once through the resource and what is asked of it, with no list of what is asked
//! and nothing noted. A walk does so. It stops where an item would be asked too often, or by too much, and then tells nothing. What a
//! resource lacks, and on which unread rules it hangs, `fhir_validator` finds, which keeps what it judged.
//!
//! ```
//! /// Whether a walk of so many steps shows that an item conforms to a node, whatever unread rules mean.
//! pub fn is_shown(alloc: Global, schema: &Schema, item: &Typed<'_, '_>, node: NodeRef, steps: usize) -> bool {
//!     matches!(conforms(alloc, schema, item, node, steps), Some(true))
//! }
//! ```
//!
//! The contract to read is that of [`conforms`]: what a walk tells is what the word of the same name in `fhir_conformance` says.
#![tactic(auto)]

mod children;
mod facets;
mod known;
mod rules;
mod slicing;
mod walking;

pub use walking::conforms;
