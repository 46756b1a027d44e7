//! What two packages have alike: value sets with all that they rest on, names that stay, and a text that begins no text of either.
//!
//! The contracts to read first are those of [`Changes`], which tells which value sets both have alike, and of [`spread`], which carries marks along a
//! graph.
#![tactic(auto)]

mod differing;
mod mark;
mod naming;
mod profile;
mod spreading;
mod value_sets;

pub use differing::same_tree;
pub use mark::{mark_between, marked};
pub use naming::{
    content_stays, name_stays, place_named, profile_stays, profiles_named, targets_named,
};
pub use profile::{has_profile, is_profile};
pub use spreading::spread;
pub use value_sets::Changes;
