//! What the definitions of judging say of small inputs, beside the examples in the crates themselves: so a definition that is changed
//! together with its code is refused. They stand apart, since nothing stands on them: so they cost no other crate's proof.
#![tactic(auto)]

mod belonging;
mod bindings;
mod contained;
mod order;
mod ranges;
mod targets;
mod times;
mod typing;
mod usable;
mod values;

pub use belonging::{values_of_choices, values_of_several};
pub use bindings::values_of_no_concept;
pub use contained::{contained_resources, nearest_resources};
pub use order::{names_in_order, ordered_steps, steps_at_the_end, unordered_steps};
pub use ranges::{positive_bounds, unsigned_bounds};
pub use targets::{named_targets, narrower_targets};
pub use times::equal_times;
pub use typing::{companions_in_number, empty_objects};
pub use usable::{whole_elements, whole_roots};
pub use values::items_without_values;
