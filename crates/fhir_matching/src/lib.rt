//! When two JSON values are equal, and when one fits another.
//!
//! ```
//! /// Whether a JSON value equals another, in whatever order the members stand, or has at least what the other has.
//! pub fn is_or_has(value: &Json<'_>, other: &Json<'_>) -> bool
//!     ensures { result ≡ (equal (tree_of value.now) (tree_of other.now) || fits (tree_of value.now) (tree_of other.now)) }
//! {
//!     json_eq(value, other) || matches(value, other)
//! }
//! ```
//!
//! Read first the contract of `json_eq`, whose word is `equal` of `specs/Equality.antt`, and then that of `equivalence`: so
//! defined, equality is an equivalence.
#![tactic(auto)]

mod equality;
mod indexed;
mod patterns;
mod places;

pub use equality::{equivalence, json_eq};
pub use indexed::json_eq_in;
pub use patterns::{fitting, matches};
