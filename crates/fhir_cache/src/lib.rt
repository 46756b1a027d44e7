//! Takes out of a cache what no longer stands.
//!
//! ```
//! /// Numbers above a bound stay.
//! struct Above(u64);
//!
//! impl Rule<u64> for Above {
//!     ghost stays = { λ rule n. ltb rule.field-0 n };
//!
//!     fn stays(&self, value: &u64) -> bool {
//!         self.0 < *value
//!     }
//! }
//! ```
//!
//! The contract to read first is that of [`retain`]. The cache itself is the kit's `lru`.
#![tactic(auto)]

mod retaining;
mod rule;

pub use retaining::retain;
pub use rule::Rule;
