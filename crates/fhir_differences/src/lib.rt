//! Where two profiles may differ, and by what change a resource of the one may be none of the other.
//!
//! ```
//! /// In how many places two profiles may differ, of which a pair fails.
//! pub fn difference_count(
//!     alloc: Global,
//!     schema: &Schema,
//!     roots: NodePair,
//!     pair: Pair,
//! ) -> Result<usize, NoMemory> {
//!     Ok(differences(alloc, schema, roots, pair)?.len())
//! }
//! ```
//!
//! The call is [`differences`]. From the pair of two roots the pairs that it asks for are found, each with the way to its place (`ways`),
//! and then what could be changed there (`changes`). No contract says which: whoever makes a resource of them has it judged.
#![tactic(auto)]

mod changes;
mod extremes;
mod finder;
mod nodes;
mod orders;
mod step;
mod ways;

pub use nodes::{entry_of, least_at, most_at, profile_for};
pub use step::{Change, Difference, Slice, Step};
pub use ways::differences;
