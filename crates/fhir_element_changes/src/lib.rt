//! What differs between the elements of a profile and those of its base, in words, and as a table of a page.
//!
//! ```
//! /// Puts in what differs between the first definition and its base.
//! pub fn differences(alloc: Global, into: &mut Element, schema: &Schema, base: &str) -> Result<(), NoMemory> {
//!     let elements = changed_elements(alloc, schema, 0, base)?;
//!     Ok(push_table(alloc, into, 0, &elements, None)?)
//! }
//! ```
//!
//! The contracts to read first are those of [`changed_elements`] and [`push_table`].
#![tactic(auto)]

mod changes;
mod constraints;
mod element_words;
mod tables;

pub use changes::{Change, Changed, changed_elements};
pub use element_words::Aspect;
pub use tables::{Failing, push_table};
