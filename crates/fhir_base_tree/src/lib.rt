//! The tree of bases, as a picture: each profile below what it rests on, with its verdict.
//!
//! ```
//! /// The tree of one profile, which rests on a base that isn't audited.
//! pub fn one(alloc: Global, url: &str, base: &str, heading: usize) -> Result<Element, AllocError> {
//!     let profile = Profile {
//!         url,
//!         base,
//!         class: "narrows",
//!         word: "narrows",
//!         shape: Shape::Dot,
//!     };
//!     fhir_base_tree::tree(alloc, &[profile], Attribute::LabelledBy(Part::Heading, heading))
//! }
//! ```
//!
//! The contract to read first is that of [`tree`].
#![tactic(auto)]

mod forest;
mod picture;

pub use forest::{Profile, Shape};
pub use picture::tree;
