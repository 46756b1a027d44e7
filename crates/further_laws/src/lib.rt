//! Laws that say in the standard's words what the definitions of lower libraries compute. They stand apart from those, since nothing
//! stands on them: so they cost no other crate's proof.
#![tactic(auto)]

mod bases;
mod children;
mod codes;
mod collections;
mod contradictions;
mod given;
mod lists;
mod parts;
mod rules;
mod slices;
mod types;

pub use bases::{chains_of_bases, covered_codes};
pub use children::{all_asks, children_by_name, one_of_several_profiles};
pub use codes::{codes_of_sets, compositions};
pub use collections::{
    equality_of_nothing, first_values, membership, positions, shared_values, type_of_nothing,
    united_values,
};
pub use contradictions::never_held;
pub use given::{given_inclusion, standings_as_given};
pub use lists::{lists_take_effect_whole, removed_urls};
pub use parts::sound_parts;
pub use rules::texts_of_rules;
pub use slices::{criteria_of_slices, items_in_two_slices};
pub use types::typing_by_types;
