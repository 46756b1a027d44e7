//! The members of a definition that FHIR R4 doesn't have, as a `differentail`, or `mni` in an element: they are passed over wherever the
//! definition is read, so that a rule that is misspelt is lost.
//!
//! ```
//! /// How many members of a definition R4 doesn't have.
//! pub fn count_in(alloc: Global, definition: &Json<'_>) -> Result<usize, NoMemory>
//!     ensures { IfOk result (λ n. n ≡ length (unrecognized_in (tree_of definition.now))) }
//! {
//!     let found = unrecognized_in(alloc, definition)?;
//!     Ok(found.len())
//! }
//! ```
//!
//! The contract to read first is that of [`unrecognized_in`]. R4's names stand in `specs/Members.antt`.
#![tactic(auto)]

mod laws;
mod members;
mod names;
mod object;
mod walk;

pub use laws::{misspelt_members, right_members};
pub use object::Object;
pub use walk::{Unrecognized, unrecognized_in};
