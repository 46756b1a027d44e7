//! Snapshots of profiles that are written by differential (FHIR R4, Profiling, snapshots).
//!
//! ```
//! /// How many elements the snapshot of a definition has, or why it has none.
//! pub fn element_count(alloc: Global, package: &Package<'_>, url: &str) -> Result<usize, SnapFault>
//!     ensures { IfOk result (λ n. (es : List Element) × IsSnapshot «package».now url.now es × (n ≡ length es)) }
//! {
//!     let elements = generate(alloc, package, url)?;
//!     Ok(elements.len())
//! }
//! ```
//!
//! Read first the contract of [`generate`] and `specs/Snapshots.antt`: which snapshot a definition has, if it has one; and that of
//! [`complete`], which gives each definition of a package the one that it has (`specs/Completing.antt`). Then
//! `specs/Order.antt`: which elements a differential makes of those of its base, and in which order. What each element is stands
//! in `fhir_inheritance`.
#![tactic(auto)]

mod chains;
mod completing;
mod fault;
mod generating;
mod knowing;
mod laws;
mod listing;
mod making;
mod outcome;
mod reading;

pub use completing::complete;
pub use fault::{SnapFault, SnapNumber};
pub use generating::generate;
pub use laws::{numbers_apply, one_completion};
