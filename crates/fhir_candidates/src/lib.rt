//! Candidates: the least resource that a profile admits, with one change.
//!
//! ```
//! /// Whether a resource is made of a profile, by its root, with a change at some place.
//! pub fn has_candidate<'s>(
//!     alloc: Global,
//!     schema: &'s Schema,
//!     root: NodeRef,
//!     difference: &Difference<'s>,
//! ) -> Result<bool, NoMemory> {
//!     Ok(candidate(alloc, schema, root, plain_code(schema), difference)?.is_some())
//! }
//! ```
//!
//! The call is [`candidate`]. A text is written from the root down (`making`), with the least value of each type (`values`), into a draft
//! that is given up where it grows too large (`draft`). No contract says that the resource is right: whoever asks for one has it judged.
#![tactic(auto)]

mod draft;
mod making;
mod plain;
mod values;

pub use making::candidate;
pub use plain::plain_code;
