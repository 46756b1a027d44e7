//! Conformance of items: what a node asks of an item, and whether each rule that it asks for holds.
//!
//! A node asks a list of single things of an item: that a rule of its element holds, that the item is of one of its types, that
//! it conforms to a root too, and that a child of the item conforms to a node. An item conforms to a node where all that it
//! asks holds. Where a type names profiles, it is asked whether the item conforms to each of them, and one is enough.
//!
//! An element may have slices. A child that belongs to a slice, as `fhir_slicing` tells, conforms to the slice too. No child
//! may be in two slices. Where a slicing is ordered, the children stand in the order of its slices, and where it is open at its end,
//! those in none of them stand behind the others.
//!
//! ```
//! /// How many things a node asks of an item.
//! pub fn count_asks(
//!     alloc: Global,
//!     schema: &Schema,
//!     item: &Typed<'_, '_>,
//!     node: NodeRef,
//! ) -> Result<usize, NoMemory>
//!     ensures { Gives (λ n. n) result (length (asks schema.now (item_of item.now) node)) }
//! {
//!     let kids_by_name = KidsByName::of(alloc, item)?;
//!     let asked = asks(alloc, schema, item, &kids_by_name, node)?;
//!     Ok(asked.len())
//! }
//! ```
//!
//! The contracts to read first are those of [`asks`] and [`judge`]. `specs/Asks.antt` has what a node asks,
//! `specs/Conformance.antt` when an item conforms to a node and a resource to a profile, and `specs/Meeting.antt` which pairs of
//! node and item a resource meets; the contract of [`example`] shows the definitions at work on a small package. Unread rules
//! may mean anything: the contracts of [`positive`] and [`meanings_agree`] say what hangs on them.
#![tactic(auto)]

mod ask;
mod asking;
mod judging;
mod kids_by_name;
mod laws;
mod members;
mod profiles;
mod sequence;
mod sliced;

pub use ask::{Ask, ElementRule};
pub use asking::asks;
pub use judging::{judge, judge_constraint, judge_entry, view_of};
pub use kids_by_name::KidsByName;
pub use laws::{
    constraints_example, example, fair_meanings, given_example, given_texts, hangs_on_carried,
    letters_example, meanings_agree, positive, questions_example, roots_ask_no_root,
    slices_example, values_example,
};
pub use members::{count_in, kid_at, nearest_to, slice_at};
