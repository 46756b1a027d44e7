//! The elements of definitions (FHIR R4, ElementDefinition).
//!
//! ```
//! /// How many items an element has at least, or why the tree is no element.
//! pub fn least_of(alloc: Global, tree: &Json<'_>) -> Result<u32, ElementFault>
//!     ensures { IfOk result (λ n. (e : Element) × (element_of (tree_of tree.now) ≡ Ok e) × (n ≡ option_map_or (λ min. min) e.min 0)) }
//! {
//!     let element = ElementDef::of(alloc, tree)?;
//!     match element.min() {
//!         Some(min) => Ok(min),
//!         None => Ok(0),
//!     }
//! }
//! ```
//!
//! The contract to read first is that of [`ElementDef::of`].
#![tactic(auto)]

mod binding;
mod cause;
mod codes;
mod constraint;
mod element;
mod fault;
mod integers;
mod max;
mod reason;
mod slicing;
mod texts;
mod type_entry;

pub use binding::{BindingDef, Strength};
pub use cause::{Blame, Cause};
pub use constraint::{ConstraintDef, Severity};
pub use element::{ElementDef, ElementFields, element_cause, fields_of, owned_member};
pub use fault::ElementFault;
pub use max::Max;
pub use reason::Reason;
pub use slicing::{DiscriminatorDef, DiscriminatorType, SlicingDef, SlicingRules};
pub use type_entry::TypeEntry;
