//! What an element asks for, each facet by itself: a fixed value, a pattern, bounds, a length, targets of references, codes of
//! a value set, and how many items there may be (FHIR R4, ElementDefinition).
//!
//! ```
//! /// Whether one pattern asks for all that another does; then what has the first has the other too.
//! pub fn asks_for_all(pattern: &Json<'static>, other: &Json<'static>) -> bool
//!     ensures { IsTrue result → (x : Seen) → IsTrue (pattern_holds (tree_of pattern.now) x)
//!         → IsTrue (pattern_holds (tree_of other.now) x) }
//! {
//!     narrower_holds();
//!     Pattern(pattern).narrower(&Pattern(other))
//! }
//! ```
//!
//! Read first the contract of [`Facet`]: a facet holds, fails, or hangs on a rule that isn't read here. Then read that of
//! [`narrower_holds`]: what a narrower facet holds of, a wider one does.
#![tactic(auto)]

mod bindings;
mod bounds;
mod cardinality;
mod compact;
mod facet;
mod holding;
mod identity;
mod laws;
mod lookup;
mod order;
mod ranges;
mod scale;
mod targets;
mod unread;
mod values;
mod view;
mod worked;

pub use bindings::Binding;
pub use cardinality::{Cardinality, are_enough, are_within, is_forbidden};
pub use facet::Facet;
pub use holding::Holding;
pub use identity::identical;
pub use laws::{
    fair_meanings, given_rules, narrower_holds, narrower_itself, other_references, positive,
};
pub use lookup::Lookup;
pub use order::{Order, is_open_at_end, is_ordered, may_follow, ordered_narrower};
pub use ranges::Range;
pub use targets::Targets;
pub use unread::Unread;
pub use values::{Fixed, Length, Pattern, fixed_fits};
pub use view::View;
pub use worked::{examples, examples_of_bindings};
