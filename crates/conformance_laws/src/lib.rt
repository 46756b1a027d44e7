//! Laws that say in the standard's words when a resource conforms, and what can't be read: so a definition that is changed together with
//! its code is refused. They stand apart from the definitions, since nothing stands on them: so they cost no other crate's proof.
#![tactic(auto)]

mod ancestors;
mod asked;
mod belonging;
mod below;
mod bindings;
mod contained;
mod fields;
mod heads;
mod numbers;
mod targets;
mod types;
mod usable;
mod value_sets;
mod versions;

pub use ancestors::types_and_their_bases;
pub use asked::{items_at_elements, items_at_roots};
pub use belonging::{items_of_slices, items_on_paths, sought_items};
pub use below::elements_below;
pub use bindings::{bindings_to_sets, codings_in_sets};
pub use contained::contained_names;
pub use fields::misspelt_fields;
pub use heads::misspelt_heads;
pub use numbers::numbers_of_items;
pub use targets::targets_of_references;
pub use types::{profiles_of_types, types_of_items};
pub use usable::{concrete_resources, roots_can_be_used};
pub use value_sets::{sets_alone, unread_parts, unread_sets};
pub use versions::versions_of_profiles;
