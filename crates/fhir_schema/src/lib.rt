//! The schema of a package: which definitions can be used, their nodes, what stands below each, and the concepts of its value
//! sets.
//!
//! ```
//! /// The slots of a profile's root, where the profile can be used.
//! pub fn root_slots<'s>(schema: &'s Schema, profile: &str) -> &'s [Slot]
//!     ensures { result.now ≡ option_map_or (slots schema.now) (root schema.now profile.now) [] }
//! {
//!     match schema.root(profile) {
//!         Some(root) => schema.slots(root),
//!         None => Default::default(),
//!     }
//! }
//! ```
//!
//! The contract to read first is that of [`Schema::build`].
#![tactic(auto)]

mod chains;
mod covering;
mod laws;
mod lineage;
mod naming;
mod resting;
mod rooted;
mod schema;
mod settling;
mod types;
mod versions;

pub use fhir_forms::{Content, Criterion, Form, Property, Sought};
pub use fhir_nodes::{NodeRef, Slot, is_system};
pub use laws::{
    concepts_of_package, covering_codes, least_closed, named_nodes, one_meaning, roots_are_roots,
};
pub use naming::{names_are_utf8, nodes_by_name};
pub use rooted::usable_roots;
pub use schema::Schema;
pub use versions::versions_are_utf8;
