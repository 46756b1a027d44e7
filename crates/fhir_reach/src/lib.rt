//! What a question reaches in a package: the definitions on which its answer may rest.
//!
//! ```
//! /// The definitions on which the validation of a resource may rest.
//! pub fn definitions_under(
//!     alloc: Global,
//!     package: &Package<'_>,
//!     profile: &str,
//!     resource: &Json<'_>,
//! ) -> Result<Package<'static>, NoMemory>
//!     ensures { IfOk result (λ p. p ≡ restrict «package».now (reached «package».now (starts_of profile.now (tree_of resource.now)))) }
//! {
//!     let start = starts_of(alloc, profile, resource)?;
//!     let keys = reach(alloc, package, &start)?;
//!     restrict(alloc, package, &keys)
//! }
//! ```
//!
//! The contracts to read first are those of [`reach`] and [`restrict`]. What a definition names stands in `specs/Naming.antt`, and what
//! keys reach and stand for in `specs/Reach.antt`.
#![tactic(auto)]

mod changing;
mod key;
mod key_set;
mod laws;
mod naming;
mod places;
mod reaching;
mod restricting;
mod starting;

pub use changing::{keys_put, keys_removed};
pub use key::Key;
pub use key_set::KeySet;
pub use laws::{changes_elsewhere, frame, same_sets};
pub use reaching::{reach, reached_set};
pub use restricting::restrict;
pub use starting::starts_of;
