//! The forms of a package's nodes, and the criteria of its slices: how the children of a node are spelled in JSON, and by what
//! an item is told to belong to a slice, whether the definitions can be used or not.
//!
//! ```
//! /// Whether a name is that of a property of a node's children.
//! pub fn is_property(forms: &NodeForms, node: NodeRef, name: &str) -> bool
//!     ensures { result ≡ is_some (property_of (get_or (get_or forms.now.forms node.definition []) node.element []) name.now) }
//! {
//!     forms.property(node, name).is_some()
//! }
//! ```
//!
//! The contracts to read first are those of [`NodeForms::of`] and [`Criteria::of`].
#![tactic(auto)]

mod criteria;
mod criterion;
mod discriminating;
mod first_blame;
mod form;
mod form_table;
mod forms;
mod node_forms;
mod property_name;
mod slicings;

pub use criteria::Criteria;
pub use criterion::{Criterion, Sought};
pub use form::{Content, Form, Property};
pub use node_forms::NodeForms;
pub use slicings::is_closed;
