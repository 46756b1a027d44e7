//! The values of a result (FHIRPath N1): what they say, when two are equal, their order, and lists in which each stands once.
//!
//! ```
//! /// Whether two lists have no value in common.
//! pub fn are_apart(
//!     alloc: Global,
//!     left: &[Value<'_, '_, '_>],
//!     right: &[Value<'_, '_, '_>],
//! ) -> Result<bool, EvalFault>
//!     ensures { IfOk result (λ r. r ≡ is_empty (shared (plains_of right.now) [] (plains_of left.now))) }
//! {
//!     Ok(intersection(alloc, left, right)?.is_empty())
//! }
//! ```
//!
//! Read first the contract of [`alike`]: two values are equal as the word `alike` of `specs/Equality.antt` says, which has a line for
//! each kind. Then read the law [`equality_by_name`], and the contracts of [`union`] and [`intersection`].
#![tactic(auto)]

mod comparing;
mod equality;
mod fault;
mod keys;
mod laws;
mod sets;
mod system_value;
mod table;
mod truths;
mod value;

pub use comparing::order_of;
pub use equality::{alike, equality_between};
pub use fault::EvalFault;
pub use laws::equality_by_name;
pub use sets::{intersection, is_among, union};
pub use system_value::{SystemValue, item_value, system_value_of};
pub use truths::{is_yes, kleene_and, kleene_implies, kleene_not, kleene_or, kleene_xor};
pub use value::Value;
