//! Names by which definitions and resources are meant: ids of elements and of resources, canonicals, and relative
//! references; and an index of names.
//!
//! ```
//! /// The id in front of an element's last segment, as `Patient.name` is of `Patient.name.given`; none where a text is no id.
//! pub fn parent_of(id: &str) -> Option<&str>
//!     ensures { option_map (λ r. r.now) result ≡ (if is_ok (read_id id.now) then front_of id.now else None) }
//! {
//!     match ElementId::parse(id) {
//!         Ok(_) => front_of(id),
//!         Err(_) => None,
//!     }
//! }
//! ```
//!
//! Read first the contract of `ids_agree`: a text is read as segments exactly where an id of these segments is written
//! so. `canonicals_agree` and `targets_agree` say the same of the others.
#![tactic(auto)]

mod canonicals;
mod fault;
mod ids;
mod index;
mod laws;
mod parents;
mod resource_ids;
mod segments;
mod tagged;
mod targets;
mod texts;

pub use canonicals::Canonical;
pub use fault::NameFault;
pub use ids::{ElementId, Segments};
pub use index::Index;
pub use laws::{canonicals_agree, ids_agree, parents_agree, targets_agree};
pub use parents::{front_of, name_of, slice_of, sliced_of};
pub use resource_ids::is_id;
pub use segments::Segment;
pub use tagged::Name;
pub use targets::relative_target;
