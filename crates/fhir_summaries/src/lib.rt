//! What is known of each node before any item is seen.
//!
//! Most nodes ask nothing of an item that has no children, as a plain text has none: they are *lenient*. Most elements have one type.
//! Both are worked out once for all definitions of a table, so that whoever judges items needn't look again at each.
//!
//! ```
//! /// Whether the first element of the first definition asks nothing of an item without children, but for its type.
//! pub fn is_first_lenient(summaries: &Summaries) -> bool {
//!     summaries.is_lenient(NodeRef { definition: 0, element: 0 })
//! }
//! ```
//!
//! Read `specs/Summaries.antt` for what a lenient node is, and the contract of [`lenient_nodes`] for what follows.
#![tactic(auto)]

mod elements;
mod laws;
mod resource_types;
mod summaries;

pub use laws::lenient_nodes;
pub use resource_types::ResourceTypes;
pub use summaries::Summaries;
