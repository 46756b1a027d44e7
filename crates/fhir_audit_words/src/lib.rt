//! What an audit is told of, and what all that tell of it say alike: a verdict in a few words, the counts, and why a profile can't be used.
//!
//! The contract to read first is that of [`counts_of`].
#![tactic(auto)]

mod counting;
mod sources;
mod unusable;
mod words;

pub use counting::{Counts, counts_of};
pub use sources::Sources;
pub use unusable::unusable_line;
pub use words::verdict_word;
